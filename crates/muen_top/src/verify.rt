// The command `verify`: an image and a policy are read, with the files that its contents name, and it is
// told whether the image is sound for them.
ghost use Rattle.std.specs.Prelude.{◌≡◌, [], ◌∷◌, Ok, Some, IfOk, IfErr};
ghost use Rattle.image_verify.specs.Verdict.{AreOfFiles};
ghost use Rattle.muen_build.specs.Accepting.{HasContents};
ghost use Rattle.policy_lawful.specs.Resolution.{source_of};
ghost use Rattle.muen_top.specs.Calls.{ComesOfCommand};
ghost use Rattle.muen_top.specs.Commands.{verify as verify_command};
ghost use Rattle.muen_top.specs.PolicyCommands.{StopsCommand, StopsEach};
ghost use Rattle.muen_top.specs.Reports.{sound_text};
ghost use Rattle.muen_top.specs.Verifying.{EndsFound, HasItsParts, HasPolicy, HasToJudge, IsFound, LacksAny, NotLawful, SawImage, image_looks};
ghost use Rattle.muen_outside.specs.Puts.{Puts};

use crate::loading::{load, load_too};
use crate::outcome::{CommandError, Outcome};
use crate::run::known_as;
use expand_kernel::{Expanded, expand};
use image_pack::{Parts, unpack};
use image_verify::Fault;
use muen_build::{Given, contents_of, lawful, names_file};
use muen_num::limits::{IMAGE_MOST, POLICY_MOST};
use muen_num::{NoMemory, Seq};
use muen_outside::{Files, Sink, SinkFault, put_pieces};
use policy_lawful::Lawful;
use std::alloc::Global;

// An image, with the bytes of its file.
#[derive(Drop)]
struct ImageRead {
    parts: Parts,
    bytes: Seq<u8>,
}

// The image of this file.
fn read_image<'a, F: Files>(
    alloc: Global,
    image: &'a str,
    files: &mut F,
) -> Result<ImageRead, CommandError<'a>>
    ensures ok { IfOk result (SawImage image.now (F.held files.old) (F.history files.old) (F.history files.new)) }
    ensures parts { IfOk result HasItsParts }
    ensures err { IfErr result (StopsEach (verify_command image.now) (F.held files.old) (F.history files.old) (F.history files.new)) }
    ensures held { F.held files.new ≡ F.held files.old }
{
    let bytes = load(alloc, image, IMAGE_MOST, files)?;
    let parts = unpack(alloc, bytes.items())?;
    Ok(ImageRead { parts, bytes })
}

// A lawful policy, with the bytes of its document.
#[derive(Drop)]
struct PolicyRead {
    policy: Lawful,
    document: Seq<u8>,
}

// The policy of this file, after the image of that one, whose bytes these are.
fn read_policy<'a, F: Files>(
    alloc: Global,
    image: &str,
    bytes: &[u8],
    policy: &'a str,
    files: &mut F,
) -> Result<PolicyRead, CommandError<'a>>
    ensures ok { IfOk result (HasPolicy (image_looks image.now bytes.now) policy.now (F.held files.old) (F.history files.old) (F.history files.new)) }
    ensures err { IfErr result (NotLawful (image_looks image.now bytes.now) policy.now (F.held files.old) (F.history files.old) (F.history files.new)) }
    ensures held { F.held files.new ≡ F.held files.old }
{
    let known = known_as(policy, image, bytes);
    let document = load_too(alloc, known, policy, POLICY_MOST, files)?;
    let policy = lawful(alloc, document.items())?;
    Ok(PolicyRead { policy, document })
}

// What the regions of a policy hold, after its document and an image, whose files' bytes these are.
fn read_with_image<'a, F: Files>(
    alloc: Global,
    image: &str,
    bytes: &[u8],
    policy: &str,
    document: &[u8],
    lawful: &Lawful,
    files: &mut F,
) -> Result<Seq<Seq<u8>>, CommandError<'a>>
    ensures ok { IfOk result (HasContents ((policy.now, document.now) ∷ (image.now, bytes.now) ∷ []) lawful.now (F.held files.old) (F.history files.old) (F.history files.new)) }
    ensures err { IfErr result (LacksAny ((policy.now, document.now) ∷ (image.now, bytes.now) ∷ []) (source_of lawful.now) (F.held files.old) (F.history files.old) (F.history files.new)) }
    ensures held { F.held files.new ≡ F.held files.old }
{
    let given = [
        Given {
            name: policy,
            bytes: document,
        },
        Given { name: image, bytes },
    ];
    let things = contents_of(alloc, &given, lawful, files)?;
    Ok(things)
}

// .. after its document alone.
fn read_without_image<'a, F: Files>(
    alloc: Global,
    policy: &str,
    document: &[u8],
    lawful: &Lawful,
    files: &mut F,
) -> Result<Seq<Seq<u8>>, CommandError<'a>>
    ensures ok { IfOk result (HasContents ((policy.now, document.now) ∷ []) lawful.now (F.held files.old) (F.history files.old) (F.history files.new)) }
    ensures err { IfErr result (LacksAny ((policy.now, document.now) ∷ []) (source_of lawful.now) (F.held files.old) (F.history files.old) (F.history files.new)) }
    ensures held { F.held files.new ≡ F.held files.old }
{
    let given = [Given {
        name: policy,
        bytes: document,
    }];
    let things = contents_of(alloc, &given, lawful, files)?;
    Ok(things)
}

// What they hold. The image's bytes are let go before where no content is of its file.
fn read_contents<'a, F: Files>(
    alloc: Global,
    image: &str,
    bytes: Seq<u8>,
    policy: &str,
    document: &[u8],
    lawful: &Lawful,
    files: &mut F,
) -> Result<Seq<Seq<u8>>, CommandError<'a>>
    ensures ok { IfOk result (HasContents ((policy.now, document.now) ∷ (image.now, bytes) ∷ []) lawful.now (F.held files.old) (F.history files.old) (F.history files.new)) }
    ensures err { IfErr result (LacksAny ((policy.now, document.now) ∷ (image.now, bytes) ∷ []) (source_of lawful.now) (F.held files.old) (F.history files.old) (F.history files.new)) }
    ensures held { F.held files.new ≡ F.held files.old }
{
    if names_file(lawful, image) {
        return read_with_image(alloc, image, bytes.items(), policy, document, lawful, files);
    }
    drop(bytes);
    read_without_image(alloc, policy, document, lawful, files)
}

/// What is judged: an image, for a lawful policy.
#[derive(Drop)]
pub struct ToJudge {
    pub parts: Parts,
    pub policy: Lawful,
    /// What the policy's regions hold at the start, by number.
    pub things: Seq<Seq<u8>>,
}

/// The image of the one file, the policy of the other, and what its contents name.
///
/// # Errors
/// As `verify` tells them: a file isn't there, or is too long; the image is refused; the policy is, or a content
/// of it; a look failed; memory is refused.
pub fn read_to_judge<'a, F: Files>(
    alloc: Global,
    image: &'a str,
    policy: &'a str,
    files: &mut F,
) -> Result<ToJudge, CommandError<'a>>
    ensures ok { IfOk result (HasToJudge image.now policy.now (F.held files.old) (F.history files.old) (F.history files.new)) }
    ensures err { IfErr result (StopsCommand (verify_command image.now policy.now) (F.held files.old) (F.history files.old) (F.history files.new)) }
    ensures held { F.held files.new ≡ F.held files.old }
{
    let read = read_image(alloc, image, files)?;
    let found = read_policy(alloc, image, read.bytes.items(), policy, files)?;
    let things = read_contents(
        alloc,
        image,
        read.bytes,
        policy,
        found.document.items(),
        &found.policy,
        files,
    )?;
    Ok(ToJudge {
        parts: read.parts,
        policy: found.policy,
        things,
    })
}

// The verdict, for a policy with all that follows from it.
fn verdict(
    alloc: Global,
    expanded: Expanded,
    things: Seq<Seq<u8>>,
    parts: Parts,
) -> Result<Option<Fault>, NoMemory>
    requires { AreOfFiles expanded.lawful things }
    ensures { IfOk result (IsFound parts expanded.lawful things) }
{
    image_verify::verify(alloc, &expanded, things, parts)
}

// .. for the policy.
fn judged(alloc: Global, read: ToJudge) -> Result<Option<Fault>, NoMemory>
    requires { AreOfFiles read.policy read.things }
    ensures { IfOk result (IsFound read.parts read.policy read.things) }
{
    let ToJudge {
        parts,
        policy,
        things,
    } = read;
    let expanded = expand(alloc, policy)?;
    verdict(alloc, expanded, things, parts)
}

fn put_sound<S: Sink>(out: &mut S) -> Result<(), SinkFault>
    ensures { Puts sound_text (S.state out.old) (S.state out.new) result }
{
    put_pieces(&["sound\n"], out)
}

// Judges, and prints that the image is sound where it has no fault.
fn judge<'a, S: Sink>(alloc: Global, read: ToJudge, out: &mut S) -> Outcome<'a>
    requires { AreOfFiles read.policy read.things }
    ensures { EndsFound (IsFound read.parts read.policy read.things) (S.state out.old) (S.state out.new) result }
{
    match judged(alloc, read) {
        Ok(None) => match put_sound(out) {
            Ok(()) => Outcome::Done,
            Err(SinkFault) => Outcome::OutputFault,
        },
        Ok(Some(fault)) => Outcome::Stopped(CommandError::NotSound(fault)),
        Err(NoMemory) => Outcome::Stopped(CommandError::NoMemory),
    }
}

/// Reads the image, and the policy with the files that its contents name, and tells whether the image is
/// sound for them.
pub(crate) fn verify<'a, F: Files, S: Sink>(
    alloc: Global,
    image: &'a str,
    policy: &'a str,
    files: &mut F,
    out: &mut S,
) -> Outcome<'a>
    ensures { ComesOfCommand (Some (verify_command image.now policy.now)) (F.held files.old) (F.held files.new) (F.history files.old) (F.history files.new) (S.state out.old) (S.state out.new) result }
{
    match read_to_judge(alloc, image, policy, files) {
        Ok(read) => judge(alloc, read, out),
        Err(error) => Outcome::Stopped(error),
    }
}
