ghost use Rattle.std.specs.Prelude.{◌≡◌, ◌<◌, ◌≤◌, ◌+◌, vec_len, vec_capacity, OnOk, IsErrOf};
ghost use Rattle.c_lang.specs.Limits.{frame_limit};

use crate::frame::Frame;
use crate::step::RunError;
use c_lang::FRAME_LIMIT;

/// The frames of a run. Where it is over, they play no part.
pub struct Stack<'p, F: Copy, O: Copy> {
    pub top: Frame<'p, F, O>,
    pub below: Vec<Frame<'p, F, O>>,
    pub over: bool,
}

// By hand, so that a proof has one step for each stack that is dropped.
impl<F: Copy, O: Copy> Drop for Stack<'_, F, O> {
    fn drop(self) {
        let Stack {
            top: _top,
            below: _below,
            over: _over,
        } = self;
    }
}

impl<'p, F: Copy, O: Copy> Stack<'p, F, O> {
    // Makes room for one frame more. The frames stay as they are.
    pub(crate) fn reserve(&mut self) -> Result<(), RunError>
        ensures room { OnOk result (vec_len self.new.below < vec_capacity self.new.below) }
        ensures shallow { OnOk result (vec_len self.new.below + 1 < frame_limit) }
        ensures deep { IsErrOf result RunError.Deep → frame_limit ≤ vec_len self.old.below + 1 }
        ensures below { self.new.below.items ≡ self.old.below.items }
        ensures top { self.new.top ≡ self.old.top }
        ensures over { self.new.over ≡ self.old.over }
    {
        if self.below.len() >= FRAME_LIMIT - 1 {
            return Err(RunError::Deep);
        }
        self.below.reserve(1)?;
        Ok(())
    }
}
