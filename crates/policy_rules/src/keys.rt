// The keys and other words that rules name.
ghost use Rattle.std.specs.Prelude.{◌≡◌};
ghost use Rattle.muen_num.specs.Search.{unless};
ghost use Rattle.policy_lawful.specs.Offences.{alone, two};
ghost use Rattle.policy_rules.specs.Keys.{key_text};

use muen_num::Name;
use policy_lawful::Offence;

/// A word that a rule names in place of an element.
#[derive(Clone, Copy)]
pub(crate) enum Key {
    Processor,
    MemoryBlocks,
    Devices,
    Memory,
    Channels,
    Components,
    Events,
    Subjects,
    MajorFrames,
    Tau0,
}

impl Key {
    // The word as a name.
    #[tactic(auto, unfolding(muen_num::specs::Naming::is_name))]
    fn name(self) -> Name
        ensures { result ≡ key_text self }
    {
        match self {
            Key::Processor => Name::read(b"processor").unwrap(),
            Key::MemoryBlocks => Name::read(b"memoryBlocks").unwrap(),
            Key::Devices => Name::read(b"devices").unwrap(),
            Key::Memory => Name::read(b"memory").unwrap(),
            Key::Channels => Name::read(b"channels").unwrap(),
            Key::Components => Name::read(b"components").unwrap(),
            Key::Events => Name::read(b"events").unwrap(),
            Key::Subjects => Name::read(b"subjects").unwrap(),
            Key::MajorFrames => Name::read(b"majorFrames").unwrap(),
            Key::Tau0 => Name::read(b"tau0").unwrap(),
        }
    }

    /// The offence of this word alone, where what must hold doesn't.
    pub(crate) fn unless(self, holds: bool) -> Option<Offence>
        ensures { result ≡ unless holds (alone (key_text self)) }
    {
        Offence::alone(self.name()).unless(holds)
    }

    /// The offence of this word and a name.
    pub(crate) fn with(self, name: Name) -> Offence
        ensures { result ≡ two (key_text self) name }
    {
        Offence {
            first: self.name(),
            second: name,
        }
    }
}
