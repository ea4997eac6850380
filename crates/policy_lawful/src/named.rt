//! Elements that are declared under a name.
use muen_num::Name;
use policy_types::source::{
    Block, Channel, Component, ComponentChannel, Device, DeviceMemory, Event, Group, Irq, Ports,
    Provided, Region, Required, Subject,
};

/// An element that is declared under a name.
pub trait Named {
    ghost use Rattle.std.specs.Prelude.{◌≡◌, List, ℕ};

    ghost name: { Self → List ℕ };

    /// The name.
    fn name(&self) -> Name
        ensures { result ≡ name self.now };
}

/// A name in a list is an element under itself.
impl Named for Name {
    ghost name = { λ n. n };

    fn name(&self) -> Name {
        *self
    }
}

impl Named for Block {
    ghost name = { λ b. b.name };

    fn name(&self) -> Name {
        self.name
    }
}

impl Named for Device {
    ghost name = { λ d. d.name };

    fn name(&self) -> Name {
        self.name
    }
}

impl Named for DeviceMemory {
    ghost name = { λ m. m.name };

    fn name(&self) -> Name {
        self.name
    }
}

impl Named for Ports {
    ghost name = { λ x. x.name };

    fn name(&self) -> Name {
        self.name
    }
}

impl Named for Irq {
    ghost name = { λ i. i.name };

    fn name(&self) -> Name {
        self.name
    }
}

impl Named for Region {
    ghost name = { λ r. r.name };

    fn name(&self) -> Name {
        self.name
    }
}

impl Named for Channel {
    ghost name = { λ c. c.name };

    fn name(&self) -> Name {
        self.name
    }
}

impl Named for Component {
    ghost name = { λ c. c.name };

    fn name(&self) -> Name {
        self.name
    }
}

/// Under its logical name.
impl Named for Provided {
    ghost name = { λ x. x.logical };

    fn name(&self) -> Name {
        self.logical
    }
}

/// Under its logical name.
impl Named for Required {
    ghost name = { λ x. x.logical };

    fn name(&self) -> Name {
        self.logical
    }
}

/// Under its logical name.
impl Named for ComponentChannel {
    ghost name = { λ x. x.logical };

    fn name(&self) -> Name {
        self.logical
    }
}

impl Named for Event {
    ghost name = { λ e. e.name };

    fn name(&self) -> Name {
        self.name
    }
}

impl Named for Subject {
    ghost name = { λ s. s.name };

    fn name(&self) -> Name {
        self.name
    }
}

impl Named for Group {
    ghost name = { λ g. g.name };

    fn name(&self) -> Name {
        self.name
    }
}
