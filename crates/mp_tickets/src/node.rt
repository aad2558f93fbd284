//! The nodes of a list.
ghost use Rattle.std.specs.Prelude.{◌≡◌, IfOk, IfErr};

use crate::node_store::NodePtr;
use mp_memory::Memory;
use std::alloc::AllocFailed;
use std::marker::Model;

/// The content of a node's block. A node that is in no list has no neighbours, and its ticket has no meaning.
#[derive(Drop)]
pub(crate) struct Link<T> {
    pub(crate) ticket: u64,
    pub(crate) prev: Option<NodePtr>,
    pub(crate) next: Option<NodePtr>,
    // The last node before it in its bucket.
    pub(crate) bucket_prev: Option<NodePtr>,
    pub(crate) item: T,
}

/// A node with its item that is in no list. A contract sees the item.
#[derive(Drop)]
pub struct Node<T> {
    pub(crate) link: Box<Link<T>, Memory>,
}

impl<T> Model for Node<T> {
    ghost Value = { T };

    ghost view = { λ n. n.link.value.item };
}

/// A node for the item, in one block of memory. If the allocation fails, returns the item as `Err`.
pub fn make_node<T>(memory: Memory, item: T) -> Result<Node<T>, T>
    ensures ok { IfOk result (λ node. node ≡ item) }
    ensures refused { IfErr result (λ back. back ≡ item) }
{
    let link = Link {
        ticket: 0,
        prev: None,
        next: None,
        bucket_prev: None,
        item,
    };
    match Box::new(memory, link) {
        Ok(link) => Ok(Node { link }),
        Err(AllocFailed { value }) => Err(value.into_item()),
    }
}

impl<T> Link<T> {
    /// Its item.
    pub(crate) fn into_item(self) -> T
        ensures { result ≡ self.item }
    {
        let Link {
            ticket: _,
            prev: _,
            next: _,
            bucket_prev: _,
            item,
        } = self;
        item
    }
}

impl<T> Node<T> {
    /// Its item. Frees the block.
    pub fn into_inner(self) -> T
        ensures { result ≡ self }
    {
        let Node { link } = self;
        Box::into_inner(link).into_item()
    }
}
