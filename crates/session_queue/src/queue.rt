//! The queue of one direction.

ghost use Rattle.std.specs.Prelude.{◌≡◌, ◌+◌, ◌-◌, ◌<◌, ◌≤◌, ◌↔◌, ◌==◌, [], ◌∷◌, ◌++◌, length, max, drop, slice_get, IsTrue, OnOk, OnErr, IfOk};

use crate::numbered::Numbered;
use std::alloc::{AllocError, Global};
use std::collections::VecDeque;
use std::marker::Model;

/// For how many messages a small queue has memory at most.
const FEW: usize = 16;

/// The messages of one direction, the head first, and how many more it can take without memory.
#[derive(Debug, Drop)]
pub(crate) struct Queue {
    messages: VecDeque<Numbered>,
    spare: usize,
}

impl Model for Queue {
    ghost use Rattle.std.specs.Prelude.{◌+◌, ◌≤◌};
    ghost use Rattle.std.specs.VecDeque.{deque_len, deque_capacity};
    ghost use Rattle.session_queue.specs.declared.numbered.Numbered.{Numbered};
    ghost use Rattle.session_queue.specs.Lines.{Waiting};

    ghost Value = { Waiting Numbered };

    ghost view = { λ q. record { messages = q.messages.items; spare = q.spare } };

    ghost invariant = { λ q. deque_len q.messages + q.spare ≤ deque_capacity q.messages };
}

impl Queue {
    /// No message, and memory for n.
    pub(crate) fn with_spare(alloc: Global, n: usize) -> Result<Self, AllocError>
        ensures { IfOk result (λ q. q ≡ record { messages = []; spare = n }) }
    {
        Ok(Queue {
            messages: VecDeque::with_capacity(alloc, n)?,
            spare: n,
        })
    }

    /// Sees to it that there is memory for n more. It takes memory only where fewer are spare. An error changes
    /// nothing.
    pub(crate) fn reserve(&mut self, n: usize) -> Result<(), AllocError>
        ensures ok { OnOk result (self.new ≡ record self.old { spare = max n self.old.spare }) }
        ensures short { OnErr result (self.old.spare < n) }
        ensures err { OnErr result (self.new ≡ self.old) }
    {
        if self.spare < n {
            self.messages.reserve(n)?;
            self.spare = n;
        }
        Ok(())
    }

    /// Adds a message at the end. One fewer is spare then.
    pub(crate) fn push(&mut self, message: Numbered)
        requires { 0 < self.old.spare }
        ensures { self.new ≡ record { messages = self.old.messages ++ message ∷ []; spare = self.old.spare - 1 } }
    {
        self.messages.push_back_reserved(message);
        self.spare -= 1;
    }

    /// Adds a message at the end, with the memory that this takes: none where a place is spare. An error changes
    /// nothing.
    pub(crate) fn put(&mut self, message: Numbered) -> Result<(), AllocError>
        ensures messages { OnOk result (self.new.messages ≡ self.old.messages ++ message ∷ []) }
        ensures spare { OnOk result (self.new.spare + 1 ≡ max 1 self.old.spare) }
        ensures err { OnErr result (self.new ≡ self.old) }
    {
        self.reserve(1)?;
        self.push(message);
        Ok(())
    }

    /// Removes the head, if there is one, and says whether there was.
    pub(crate) fn pop(&mut self) -> bool
        ensures rest { self.new ≡ record self.old { messages = drop 1 self.old.messages } }
        ensures had { IsTrue result ↔ (0 < length self.old.messages) }
    {
        self.messages.pop_front().is_some()
    }

    /// Removes all messages.
    pub(crate) fn clear(&mut self)
        ensures { self.new ≡ record self.old { messages = [] } }
    {
        self.messages.clear();
    }

    /// How many messages there are.
    pub(crate) fn len(&self) -> usize
        ensures { result ≡ length self.now.messages }
    {
        self.messages.len()
    }

    /// Whether there is no message.
    pub(crate) fn is_empty(&self) -> bool
        ensures { result ≡ (length self.now.messages == 0) }
    {
        self.messages.is_empty()
    }

    /// Whether there is neither a message nor spare memory.
    pub(crate) fn is_blank(&self) -> bool
        ensures { IsTrue result ↔ (length self.now.messages + self.now.spare ≡ 0) }
    {
        self.messages.is_empty() && self.spare == 0
    }

    /// Whether it has memory for few messages alone.
    pub(crate) fn is_small(&self) -> bool {
        self.messages.capacity() <= FEW
    }

    /// The message at the position, the head's being 0.
    pub(crate) fn at(&self, n: usize) -> Option<Numbered>
        ensures { result ≡ slice_get self.now.messages n }
    {
        self.messages.get(n).copied()
    }
}

impl Clone for Queue {
    ghost is_clone = { λ queue again. again ≡ queue };

    fn clone(&self) -> Result<Self, AllocError> {
        let mut messages = self.messages.clone()?;
        messages.reserve(self.spare)?;
        Ok(Queue {
            messages,
            spare: self.spare,
        })
    }
}
