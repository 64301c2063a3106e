//! The frames of a live flow.

ghost use Rattle.std.specs.Prelude.{◌≡◌, ◌+◌, ◌∷◌, ◌<◌, ◌≤◌, [], length, drop, reverse, IfOk, MatchOption};
ghost use Rattle.std.specs.Arc.{arc_value};
ghost use Rattle.flow_machine.specs.Stacks.{frames_in};

use std::alloc::{AllocError, Global};
use std::marker::Model;
use std::sync::Arc;

/// The frames of a live flow: the one that is resumed next, and those that wait below it for a subflow to return. A flow has at
/// most 8. No frame ever changes, so the stacks before and after a step share those that stay: none is copied.
#[derive(Drop)]
pub struct Stack<F> {
    top: Arc<F>,
    // the bottom first
    below: Vec<Arc<F>>,
}

impl<F> Model for Stack<F> {
    ghost use Rattle.flow_machine.specs.Stacks.{Frames, frames_in};
    ghost use Rattle.std.specs.Prelude.{reverse, length, ◌≤◌};
    ghost use Rattle.std.specs.Arc.{arc_value};

    ghost Value = { Frames F };

    ghost view = { λ s. record {
      top = arc_value s.top;
      below = reverse (frames_in s.below.items);
    } };

    ghost invariant = { λ s. length s.below.items ≤ 7 };
}

impl<F> Stack<F> {
    /// The stack of this frame on top of at most 7 others, the bottom first. Takes no memory.
    pub(crate) fn from_bottom(below: Vec<Arc<F>>, top: Arc<F>) -> Stack<F>
        requires { length below.items ≤ 7 }
        ensures { result ≡ record { top = arc_value top; below = reverse (frames_in below.items) } }
    {
        Stack { top, below }
    }

    /// The frame that is resumed next.
    pub fn top(&self) -> &F
        ensures { result.now ≡ self.now.top }
    {
        &*self.top
    }

    /// The frame that waits for the top one to return, `None` where the top one is the only one.
    pub fn caller(&self) -> Option<&F>
        ensures { MatchOption result (self.now.below ≡ [])
            (λ frame. self.now.below ≡ frame.now ∷ drop 1 self.now.below) }
    {
        match self.below.last() {
            Some(frame) => Some(&**frame),
            None => None,
        }
    }

    /// How many frames there are, 1 to 8.
    pub fn depth(&self) -> usize
        ensures count { result ≡ length self.now.below + 1 }
        ensures most { result ≤ 8 }
    {
        self.below.len() + 1
    }

    /// The frames below the top one, the bottom first.
    pub(crate) fn below(&self) -> &[Arc<F>]
        ensures { frames_in result.now ≡ reverse self.now.below }
    {
        self.below.as_slice()
    }
}

impl<F: Drop> Stack<F> {
    /// The stack of one frame.
    ///
    /// # Errors
    ///
    /// `AllocError` for want of memory.
    pub fn new(alloc: Global, top: F) -> Result<Stack<F>, AllocError>
        ensures { IfOk result (λ stack. stack ≡ record { top = top; below = [] }) }
    {
        Ok(Stack::from_bottom(Vec::new(alloc), Arc::new(alloc, top)?))
    }

    /// The stack with another frame in place of the top one.
    ///
    /// # Errors
    ///
    /// `AllocError` for want of memory.
    pub fn with_top(&self, alloc: Global, top: F) -> Result<Stack<F>, AllocError>
        ensures { IfOk result (λ stack. stack ≡ record { top = top; below = self.now.below }) }
    {
        let top = Arc::new(alloc, top)?;
        let below = shared(alloc, self.below.as_slice())?;
        Ok(Stack::from_bottom(below, top))
    }

    /// The stack with this frame above all others.
    ///
    /// # Errors
    ///
    /// `AllocError` for want of memory.
    pub fn with_callee(&self, alloc: Global, top: F) -> Result<Stack<F>, AllocError>
        requires { length self.now.below < 7 }
        ensures { IfOk result (λ stack. stack
            ≡ record { top = top; below = self.now.top ∷ self.now.below }) }
    {
        let top = Arc::new(alloc, top)?;
        let mut below = shared(alloc, self.below.as_slice())?;
        below.push(Arc::try_clone(&self.top)?)?;
        Ok(Stack::from_bottom(below, top))
    }

    /// The stack without its top frame, and with this one in place of the frame that waited for it.
    ///
    /// # Errors
    ///
    /// `AllocError` for want of memory.
    pub fn with_caller(&self, alloc: Global, caller: F) -> Result<Stack<F>, AllocError>
        requires { 0 < length self.now.below }
        ensures { IfOk result (λ stack. stack
            ≡ record { top = caller; below = drop 1 self.now.below }) }
    {
        let top = Arc::new(alloc, caller)?;
        let below = shared(alloc, &self.below[..self.below.len() - 1])?;
        Ok(Stack::from_bottom(below, top))
    }
}

/// The same frames once more. None is copied.
fn shared<F: Drop>(alloc: Global, frames: &[Arc<F>]) -> Result<Vec<Arc<F>>, AllocError>
    ensures { IfOk result (λ same. frames_in same.items ≡ frames_in frames.now) }
{
    let mut same = Vec::with_capacity(alloc, frames.len())?;
    for frame in frames {
        same.push(Arc::try_clone(frame)?)?;
    }
    Ok(same)
}
