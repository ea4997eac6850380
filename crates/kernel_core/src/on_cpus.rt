//! Which subject is on which CPU, by numbers.
ghost use Rattle.std.specs.Prelude.{◌≡◌, ◌<◌, length, slice_get, Option, None, Some};
ghost use Rattle.muen_num.specs.ListChange.{change_at};

/// Who is on a CPU. None where there is no such CPU.
pub(crate) fn on_cpu(on: &[Option<u8>], cpu: usize) -> Option<Option<u8>>
    ensures { result ≡ slice_get on.now cpu }
{
    on.get(cpu).copied()
}

/// A subject goes onto a CPU.
#[tactic(auto, using(muen_num::proofs::ChangeLaws::set_is))]
pub(crate) fn put_on(on: &mut [Option<u8>], cpu: usize, subject: u8)
    requires { cpu < length on.old }
    ensures { on.new ≡ change_at cpu (λ _. Some subject) on.old }
{
    on[cpu] = Some(subject);
}
