//! Each subject's windows, where an image has what they show.
ghost use Rattle.std.specs.Prelude.{◌≡◌, map, slice_index, IfOk};
ghost use Rattle.expand_kernel.specs.Expansion.{IsExpanded};
ghost use Rattle.image_memory.specs.Memory.{address_at};
ghost use Rattle.image_soundness.specs.Numbered.{address_at_number};
ghost use Rattle.image_soundness.specs.Sound.{thing_spans};
ghost use Rattle.image_verify.specs.ByNumber.{all_numbered_on, numbered_on};
ghost use Rattle.image_verify.specs.Windows.{AreTablesOverContents};
ghost use Rattle.policy_lawful.specs.Resolution.{source_of};

use ept_check::{Leaf, SubjectTables, Window};
use expand_kernel::{Expanded, GrantedWindow};
use image_checks::thing_indexes;
use image_pack::{Parts, span_numbered};
use muen_num::{NoMemory, Seq};
use policy_lawful::{Caching, ThingIndex};
use std::alloc::Global;

// ---- where things lie

// The addresses of the spans that aren't the kernel's, in the order of their numbers.
fn thing_addresses(alloc: Global, image: &Parts) -> Result<Vec<u64>, NoMemory>
    ensures { IfOk result (λ v. v.items ≡ map (λ e. e.0.address) (thing_spans image.now)) }
{
    let spans = image.image().spans.items();
    let indexes = thing_indexes(alloc, spans)?;
    let mut addresses = Vec::new(alloc);
    for index in &indexes {
        addresses.push(spans[*index].address)?;
    }
    Ok(addresses)
}

// Where the span of this number lies.
fn span_address(image: &Parts, number: usize) -> u64
    ensures { result ≡ address_at image.now number }
{
    match span_numbered(image.image().spans.items(), number) {
        None => 0,
        Some(span) => span.address,
    }
}

// Where the state page of the subject at an index lies.
fn state_address(image: &Parts, subject: usize) -> u64
    ensures { result ≡ slice_index (map (λ q. address_at image.now q.state) image.now.subjects) subject }
{
    match image.image().subjects.items().get(subject) {
        None => 0,
        Some(part) => span_address(image, usize::from(part.state)),
    }
}

// Where what has this number lies, the things that aren't state pages at these addresses.
fn address_of(image: &Parts, addresses: &[u64], thing: ThingIndex) -> u64
    requires { addresses.now ≡ map (λ e. e.0.address) (thing_spans image.now) }
    ensures { result ≡ address_at_number image.now thing }
{
    match thing {
        ThingIndex::Declared(number) => match addresses.get(number) {
            None => 0,
            Some(address) => *address,
        },
        ThingIndex::State(subject) => state_address(image, subject),
    }
}

// ---- windows

// A window where the image has what it shows. Where walks lead doesn't depend on its memory type nor on
// the pages by which it may be mapped: they are write-back and of 4 KiB.
fn window_on(image: &Parts, addresses: &[u64], window: &GrantedWindow) -> Window
    requires { addresses.now ≡ map (λ e. e.0.address) (thing_spans image.now) }
    ensures { result ≡ numbered_on image.now window.now }
{
    Window {
        guest: window.guest,
        size: window.size,
        address: address_of(image, addresses, window.thing),
        rights: window.rights,
        caching: Caching::Wb,
        leaf: Leaf::Small,
    }
}

fn windows_on(
    alloc: Global,
    image: &Parts,
    addresses: &[u64],
    granted: &[GrantedWindow],
) -> Result<Vec<Window>, NoMemory>
    requires { addresses.now ≡ map (λ e. e.0.address) (thing_spans image.now) }
    ensures { IfOk result (λ v. v.items ≡ all_numbered_on image.now granted.now) }
{
    let mut windows = Vec::new(alloc);
    for window in granted {
        windows.push(window_on(image, addresses, window))?;
    }
    Ok(windows)
}

/// The tables of each subject that a policy and an image both have, with its windows by guest address
/// where the image has what they show: a thing at the address of the span of its number, among those that
/// aren't the kernel's, a state page where the monitored subject's part of the image says, and at 0 what
/// the image hasn't. All windows are write-back, and mapped by pages of 4 KiB: where walks lead doesn't
/// depend on it.
///
/// # Errors
/// Memory is refused.
pub fn subject_tables(
    alloc: Global,
    expanded: &Expanded,
    image: &Parts,
) -> Result<Vec<SubjectTables>, NoMemory>
    // over an image that has the contents of the policy over some files, and as many subjects
    ensures tables { IfOk result (λ v. AreTablesOverContents (source_of expanded.now.lawful) image.now v.items) }
    // all stands that follows from the policy, since its type says so
    ensures expanded { IsExpanded expanded.now }
{
    let grants = expanded.grants();
    let parts = image.image().subjects.items();
    let addresses = thing_addresses(alloc, image)?;
    let mut tables = Vec::new(alloc);
    for (granted, part) in grants.iter().zip(parts) {
        let windows = windows_on(alloc, image, &addresses, granted.windows.items())?;
        tables.push(SubjectTables {
            eptp: part.eptp,
            windows: Seq::of(windows),
        })?;
    }
    Ok(tables)
}
