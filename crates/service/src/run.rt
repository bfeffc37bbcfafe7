// A list of calls, made one after the other. That the plan stays is a clause, as in calls.rt.
ghost use Rattle.std.specs.Prelude.{◌≡◌, IfOk, OnErr};
ghost use Rattle.service.specs.Owned.{plan_of, owned};
ghost use Rattle.service.specs.Running.{Runs};

use crate::owner::Directory;
use memory::interface::Memory;
use protocol::call::{Answer, Call, Refusal};
use std::alloc::{AllocError, Global};

impl<P: Memory, F: Memory, S: Memory> Directory<P, F, S> {
    // Makes the calls in their order, and gives their answers. Want of memory shows before the first call.
    pub fn run(
        &mut self,
        heap: Global,
        calls: &[Call],
    ) -> Result<Vec<Result<Answer, Refusal>>, AllocError>
        ensures runs { IfOk result (λ v. Runs (plan_of self.old) (owned P.Memory.words F.Memory.words S.Memory.words self.old) calls.now v.items (owned P.Memory.words F.Memory.words S.Memory.words self.new)) }
        ensures refused_unchanged { OnErr result (self.new ≡ self.old) }
        ensures plan { plan_of self.new ≡ plan_of self.old }
    {
        let mut answers = Vec::with_capacity(heap, calls.len())?;
        for call in calls {
            let answer = self.call(*call);
            answers.push_reserved(answer);
        }
        Ok(answers)
    }
}
