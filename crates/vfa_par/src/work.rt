//! What is done on each input.

ghost use Rattle.std.specs.Prelude.{IfOk};

use std::alloc::{AllocError, Global};

/// Work that gives a result for an input. Workers share it, and it changes nothing that another one sees.
pub trait Work: Sync {
    /// What the work is done on.
    type In: Sync;

    /// What comes of it.
    type Out: Send + Drop;

    // The inputs that the work can be done on.
    ghost can_run: { Self → Self.In → Type 0 };

    // The results that an input may have. Where it has no more than one, this is the input's defined result.
    ghost is_result: { Self → Self.In → Self.Out → Type 0 };

    /// A result of the input, or want of memory.
    fn run(&self, alloc: Global, input: &Self::In) -> Result<Self::Out, AllocError>
        requires { can_run self.now input.now }
        ensures { IfOk result (λ out. is_result self.now input.now out) };
}
