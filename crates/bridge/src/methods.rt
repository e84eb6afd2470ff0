// One method an event: the event is called on the bridge's state, and the bridge handed back with its answer.
ghost use Rattle.std.specs.Prelude.{◌≡◌, length};
ghost use Rattle.refusals.specs.Refusals.{number_in};
ghost use Rattle.machine.specs.Memory.{read_step, read_area, write_step, write_area};
ghost use Rattle.machine.specs.Config.{config_step, config_area};
ghost use Rattle.machine.specs.Completions.{held, completed, complete_step};
ghost use Rattle.machine.specs.Ticks.{ticked, tick_step, linked, link_step};
ghost use Rattle.machine.specs.Messages.{message_step};
ghost use Rattle.machine.specs.Take.{take_refusal, looked, release_step};
ghost use Rattle.bridge.specs.View.{view_of, step_of};

use crate::{Answered, Bridge, Refusal};
use burst::Burst;
use ecam::Access;
use events::complete::complete_in;
use events::config::config_in;
use events::link::link_in;
use events::memory::{read_in, write_in};
use events::message::message_in;
use events::take::{check_take, look_in, release_in};
use events::tick::tick_in;

impl Bridge {
    // A memory read.
    pub fn read(self, q: Burst, area: &mut [u8]) -> Answered
        ensures { (step_of result ≡ read_step (view_of self) q (length area.old)) × (area.new ≡ read_area (view_of self) q area.old) }
    {
        let mut bridge = self;
        let answer = read_in(&mut bridge.state, q, area);
        Answered { bridge, answer }
    }

    // A memory write.
    pub fn write(self, q: Burst, bytes: &[u8], area: &mut [u8]) -> Answered
        ensures { (step_of result ≡ write_step (view_of self) q bytes.now (length area.old)) × (area.new ≡ write_area (view_of self) q bytes.now area.old) }
    {
        let mut bridge = self;
        let answer = write_in(&mut bridge.state, q, bytes, area);
        Answered { bridge, answer }
    }

    // A configuration access; its answer is taken from slot 8.
    pub fn config(self, a: Access, area: &mut [u8]) -> Answered
        ensures { (step_of result ≡ config_step (view_of self) a (length area.old)) × (area.new ≡ config_area (view_of self) a area.old) }
    {
        let mut bridge = self;
        let answer = config_in(&mut bridge.state, &self.cells, a, area);
        Answered { bridge, answer }
    }

    // A completion came: these bytes, a header with its payload.
    pub fn complete(self, store: &mut [u8], packet: &[u8]) -> Answered
        ensures { (step_of result ≡ complete_step (view_of self) store.old packet.now) × (store.new ≡ (completed (held (view_of self) store.old) packet.now).store) }
    {
        let mut bridge = self;
        let answer = complete_in(&mut bridge.state, store, packet);
        Answered { bridge, answer }
    }

    // A tick.
    pub fn tick(self, store: &mut [u8]) -> Answered
        ensures { (step_of result ≡ tick_step (view_of self) store.old) × (store.new ≡ (ticked (held (view_of self) store.old)).store) }
    {
        let mut bridge = self;
        let answer = tick_in(&mut bridge.state, store);
        Answered { bridge, answer }
    }

    // The link goes up or down.
    pub fn link(self, store: &mut [u8], up: bool) -> Answered
        ensures { (step_of result ≡ link_step up (view_of self) store.old) × (store.new ≡ (linked up (held (view_of self) store.old)).store) }
    {
        let mut bridge = self;
        let answer = link_in(&mut bridge.state, store, up);
        Answered { bridge, answer }
    }

    // An error message came: these bytes.
    pub fn message(self, packet: &[u8]) -> Answered
        ensures { step_of result ≡ message_step (view_of self) packet.now }
    {
        let mut bridge = self;
        let answer = message_in(&mut bridge.state, &mut bridge.cells, packet);
        Answered { bridge, answer }
    }

    // Whether a look or a release at a slot is accepted.
    pub fn check_take(self, store: &[u8], slot: u32) -> Result<(), Refusal>
        ensures { number_in result ≡ take_refusal (view_of self) (length store.now) slot }
    {
        check_take(&self.state, store, slot)
    }

    // The part of the store that holds a finished read.
    pub fn look(self, store: &[u8], slot: u32) -> &[u8]
        ensures { result.now ≡ looked (view_of self) store.now slot }
    {
        look_in(&self.state, store, slot)
    }

    // Gives the answer in a slot and frees the slot.
    pub fn release(self, store: &[u8], slot: u32) -> Answered
        ensures { step_of result ≡ release_step (view_of self) (length store.now) slot }
    {
        let mut bridge = self;
        let answer = release_in(&mut bridge.state, store, slot);
        Answered { bridge, answer }
    }
}
