//! The names that are printed for major frames and CPUs.
ghost use Rattle.std.specs.Prelude.{◌≡◌, ◌≤◌, ◌++◌, true, length, decimal};
ghost use Rattle.std.specs.List.{list_all};
ghost use Rattle.muen_num.specs.Naming.{is_name_byte};
ghost use Rattle.policy_lawful.specs.Rules.{major_name, cpu_name};

use muen_num::Name;
use muen_num::limits::NAME_MOST;
use muen_num::text::{append, append_decimal};

// These bytes, and the digits of a number behind them.
fn numbered(front: &[u8], number: u64) -> Name
    requires bytes { list_all is_name_byte front.now ≡ true }
    requires short { length front.now ≤ 40 }
    ensures { result ≡ front.now ++ decimal number }
{
    let mut text = [0u8; NAME_MOST];
    let end = append(&mut text, 0, front);
    let end = append_decimal(&mut text, end, number);
    match Name::read(&text[..end]) {
        Some(name) => name,
        None => unreachable!(),
    }
}

/// The name of the major frame at an index.
pub fn major_name(index: usize) -> Name
    ensures { result ≡ major_name index }
{
    numbered(b"major.", index as u64)
}

/// The name of a CPU.
pub fn cpu_name(cpu: u64) -> Name
    ensures { result ≡ cpu_name cpu }
{
    numbered(b"cpu.", cpu)
}
