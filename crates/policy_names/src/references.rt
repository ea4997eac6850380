//! Elements that refer to one name each.
ghost use Rattle.policy_lawful.specs.Resolution.{name_at};

use crate::declared::refer;
use crate::refers::Reference;
use muen_num::Name;
use policy_lawful::{NameSet, Refusal, resolved, source};

/// A mapping of a region.
impl Reference for source::Mapping {
    type Resolved = resolved::Mapping;

    ghost name = { λ x. x.region };

    ghost named = { λ names x. record { region = name_at names x.region; virtual_address = x.virtual_address; rights = x.rights } };

    ghost index = { λ x. x.region };

    fn resolve_in(&self, names: &NameSet, by: Name) -> Result<resolved::Mapping, Refusal> {
        Ok(resolved::Mapping {
            region: refer(names, by, self.region)?,
            virtual_address: self.virtual_address,
            rights: self.rights,
        })
    }
}

/// An end of a channel.
impl Reference for source::ChannelUse {
    type Resolved = resolved::ChannelUse;

    ghost name = { λ x. x.channel };

    ghost named = { λ names x. record { channel = name_at names x.channel; role = x.role; virtual_address = x.virtual_address; call = x.call; vector = x.vector } };

    ghost index = { λ x. x.channel };

    fn resolve_in(&self, names: &NameSet, by: Name) -> Result<resolved::ChannelUse, Refusal> {
        Ok(resolved::ChannelUse {
            channel: refer(names, by, self.channel)?,
            role: self.role,
            virtual_address: self.virtual_address,
            call: self.call,
            vector: self.vector,
        })
    }
}

/// A window on a device's memory.
impl Reference for source::DeviceMapping {
    type Resolved = resolved::DeviceMapping;

    ghost name = { λ x. x.memory };

    ghost named = { λ names x. record { memory = name_at names x.memory; virtual_address = x.virtual_address; rights = x.rights } };

    ghost index = { λ x. x.memory };

    fn resolve_in(&self, names: &NameSet, by: Name) -> Result<resolved::DeviceMapping, Refusal> {
        Ok(resolved::DeviceMapping {
            memory: refer(names, by, self.memory)?,
            virtual_address: self.virtual_address,
            rights: self.rights,
        })
    }
}

/// A device's interrupt line.
impl Reference for source::IrqUse {
    type Resolved = resolved::IrqUse;

    ghost name = { λ x. x.irq };

    ghost named = { λ names x. record { irq = name_at names x.irq; vector = x.vector } };

    ghost index = { λ x. x.irq };

    fn resolve_in(&self, names: &NameSet, by: Name) -> Result<resolved::IrqUse, Refusal> {
        Ok(resolved::IrqUse {
            irq: refer(names, by, self.irq)?,
            vector: self.vector,
        })
    }
}

/// A source of an event.
impl Reference for source::EventSource {
    type Resolved = resolved::EventSource;

    ghost name = { λ x. x.event };

    ghost named = { λ names x. record { event = name_at names x.event; way = x.way } };

    ghost index = { λ x. x.event };

    fn resolve_in(&self, names: &NameSet, by: Name) -> Result<resolved::EventSource, Refusal> {
        Ok(resolved::EventSource {
            event: refer(names, by, self.event)?,
            way: self.way,
        })
    }
}

/// A target of an event.
impl Reference for source::EventTarget {
    type Resolved = resolved::EventTarget;

    ghost name = { λ x. x.event };

    ghost named = { λ names x. record { event = name_at names x.event; vector = x.vector } };

    ghost index = { λ x. x.event };

    fn resolve_in(&self, names: &NameSet, by: Name) -> Result<resolved::EventTarget, Refusal> {
        Ok(resolved::EventTarget {
            event: refer(names, by, self.event)?,
            vector: self.vector,
        })
    }
}

/// A window on a monitored subject.
impl Reference for source::Monitor {
    type Resolved = resolved::Monitor;

    ghost name = { λ x. x.subject };

    ghost named = { λ names x. record { subject = name_at names x.subject; virtual_address = x.virtual_address; rights = x.rights } };

    ghost index = { λ x. x.subject };

    fn resolve_in(&self, names: &NameSet, by: Name) -> Result<resolved::Monitor, Refusal> {
        Ok(resolved::Monitor {
            subject: refer(names, by, self.subject)?,
            virtual_address: self.virtual_address,
            rights: self.rights,
        })
    }
}

/// A minor frame of a group.
impl Reference for source::MinorFrame {
    type Resolved = resolved::MinorFrame;

    ghost name = { λ x. x.group };

    ghost named = { λ names x. record { group = name_at names x.group; ticks = x.ticks } };

    ghost index = { λ x. x.group };

    fn resolve_in(&self, names: &NameSet, by: Name) -> Result<resolved::MinorFrame, Refusal> {
        Ok(resolved::MinorFrame {
            group: refer(names, by, self.group)?,
            ticks: self.ticks,
        })
    }
}

/// A name alone, as a group has of its members and a subject of ports.
impl Reference for Name {
    type Resolved = usize;

    ghost name = { λ x. x };

    ghost named = { name_at };

    ghost index = { λ x. x };

    fn resolve_in(&self, names: &NameSet, by: Name) -> Result<usize, Refusal> {
        refer(names, by, *self)
    }
}
