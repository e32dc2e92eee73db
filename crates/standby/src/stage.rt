//! A leader, the packets that it ever sent, and a follower: what one event does.

ghost use Rattle.std.specs.Prelude.{◌≡◌, OnErr, OnOk};
ghost use Rattle.std.specs.Option.{option_copied};
ghost use Rattle.standby.specs.Shipping.{nth, taken_in};
ghost use Rattle.standby.specs.Worlds.{first_state, reopened, step_of, with_record};

use crate::event::WorldEvent;
use crate::packet::Packet;
use corr_text::{Memory, Text};
use std::alloc::Global;
use std::marker::Model;

/// What a world is at one moment.
#[derive(Drop)]
pub(crate) struct Stage {
    alloc: Global,
    leader: Vec<Text>,
    sent: Vec<Packet>,
    follower: Vec<Text>,
    confirmed: usize,
}

impl Model for Stage {
    ghost use Rattle.standby.specs.Worlds.{WorldState};

    ghost Value = { WorldState };

    ghost view = { λ w. record { leader = w.leader.items; sent = w.sent.items; follower = w.follower.items; confirmed = w.confirmed } };
}

/// The record with a number, which counts from 1.
fn nth_record(records: &[Text], n: u32) -> Option<&Text>
    ensures { option_copied result ≡ nth records.now n }
{
    if n == 0 {
        return None;
    }
    records.get(n as usize - 1)
}

/// The packet with a place, which counts from 1.
fn nth_packet(packets: &[Packet], n: u32) -> Option<&Packet>
    ensures { option_copied result ≡ nth packets.now n }
{
    if n == 0 {
        return None;
    }
    packets.get(n as usize - 1)
}

/// Adds the record of a packet whose number is the next one.
fn take_in(alloc: Global, held: &mut Vec<Text>, packet: &Packet) -> Result<(), Memory>
    ensures ok { OnOk result (held.new.items ≡ taken_in held.old.items packet.now) }
    ensures err { OnErr result (held.new.items ≡ held.old.items) }
{
    if packet.number as usize == held.len() + 1 {
        held.push(packet.body.copy(alloc)?)?;
    }
    Ok(())
}

impl Stage {
    /// Nothing is acknowledged, sent or held.
    pub(crate) fn new(alloc: Global) -> Stage
        ensures { result ≡ first_state }
    {
        Stage {
            alloc,
            leader: Vec::new(alloc),
            sent: Vec::new(alloc),
            follower: Vec::new(alloc),
            confirmed: 0,
        }
    }

    fn add(&mut self, r: &Text) -> Result<(), Memory>
        ensures ok { OnOk result (self.new ≡ with_record self.old r.now) }
        ensures err { OnErr result (self.new ≡ self.old) }
    {
        self.leader.push(r.copy(self.alloc)?)?;
        self.confirmed = self.follower.len();
        Ok(())
    }

    fn send(&mut self, k: u32) -> Result<(), Memory>
        ensures ok { OnOk result (self.new ≡ step_of self.old (WorldEvent.Send k)) }
        ensures err { OnErr result (self.new ≡ self.old) }
    {
        let Some(r) = nth_record(self.leader.as_slice(), k) else {
            return Ok(());
        };
        let packet = Packet {
            number: k,
            body: r.copy(self.alloc)?,
        };
        self.sent.push(packet)?;
        self.confirmed = self.follower.len();
        Ok(())
    }

    fn deliver(&mut self, n: u32) -> Result<(), Memory>
        ensures ok { OnOk result (self.new ≡ step_of self.old (WorldEvent.Deliver n)) }
        ensures err { OnErr result (self.new ≡ self.old) }
    {
        let Some(packet) = nth_packet(self.sent.as_slice(), n) else {
            return Ok(());
        };
        let held = self.follower.len();
        take_in(self.alloc, &mut self.follower, packet)?;
        self.confirmed = held;
        Ok(())
    }

    fn reopen(&mut self, n: u32)
        ensures { self.new ≡ reopened self.old n }
    {
        let n = n as usize;
        if self.confirmed <= n && n <= self.follower.len() {
            self.follower.truncate(n);
            self.confirmed = n;
        }
    }

    pub(crate) fn apply(&mut self, e: &WorldEvent) -> Result<(), Memory>
        ensures ok { OnOk result (self.new ≡ step_of self.old e.now) }
        ensures err { OnErr result (self.new ≡ self.old) }
    {
        match e {
            WorldEvent::Add(r) => self.add(r),
            WorldEvent::Send(k) => self.send(*k),
            WorldEvent::Deliver(n) => self.deliver(*n),
            WorldEvent::Reopen(n) => {
                self.reopen(*n);
                Ok(())
            }
        }
    }

    pub(crate) fn leader(&self) -> &[Text]
        ensures { result.now ≡ self.now.leader }
    {
        self.leader.as_slice()
    }

    pub(crate) fn follower(&self) -> &[Text]
        ensures { result.now ≡ self.now.follower }
    {
        self.follower.as_slice()
    }

    pub(crate) fn confirmed(&self) -> u64
        ensures { result ≡ self.now.confirmed }
    {
        self.confirmed as u64
    }
}
