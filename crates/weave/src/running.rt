// A block run in one order, and two runs compared.
use crate::bringing;
use crate::digest::{Digest, Told};
use crate::events::{Exchange, Happening, Part};
use port::Running;
use record::Port;
use std::fmt;

// How much there was of each kind, and how much was measured.
#[derive(Clone, Copy, Default)]
pub struct Counts {
    pub syncs: u64,
    pub requests: u64,
    pub foreign: u64,
    pub filters: u64,
    pub offsets: u64,
    pub delays: u64,
}

impl Counts {
    // A match on the few cases that there are, as in add_measured: no step is chosen by it.
    fn add_part(&mut self, part: Part) {
        match part {
            Part::Opening(_) => {}
            Part::Foreign => self.foreign = self.foreign.wrapping_add(1),
            Part::Filter => self.filters = self.filters.wrapping_add(1),
            Part::End(Exchange::Sync) => self.syncs = self.syncs.wrapping_add(1),
            Part::End(_) => self.requests = self.requests.wrapping_add(1),
        }
    }

    fn add_measured(&mut self, kind: Option<Exchange>) {
        match kind {
            None => {}
            Some(Exchange::Sync) => self.offsets = self.offsets.wrapping_add(1),
            Some(_) => self.delays = self.delays.wrapping_add(1),
        }
    }

    // Whether each exchange was measured.
    fn is_even(&self) -> bool {
        self.offsets == self.syncs && self.delays == self.requests
    }
}

impl fmt::Display for Counts {
    fn fmt<W: fmt::Write>(&self, f: &mut fmt::Formatter<W>) -> fmt::Result {
        let Counts {
            syncs,
            requests,
            foreign,
            filters,
            offsets,
            delays,
        } = *self;
        write!(
            f,
            "{syncs} sync exchanges, {requests} delay exchanges, {foreign} foreign events, "
        )?;
        write!(
            f,
            "{filters} filter answers: {offsets} offsets, {delays} delays"
        )?;
        if !self.is_even() {
            f.write_str(", NOT AS MANY AS EXCHANGES")?;
        }
        Ok(())
    }
}

// What a run of a block leaves: its record, a digest for each event at the event's place, one of the measurements in their order,
// and how many events were not answered, or did not measure, as they should.
#[derive(Clone, Copy)]
pub struct Ran {
    pub port: Port,
    digests: [Digest; 24],
    measured: Digest,
    wrong: usize,
}

impl Ran {
    // What came of an event. How many events lie between two measurements is not compared.
    fn note(&mut self, event: Happening, told: Told) {
        if let Some(digest) = self.digests.get_mut(event.place) {
            *digest = told.all;
        }
        if told.kind.is_some() {
            self.measured = self.measured.with(told.measured);
        }
        let answer = event.what.answer();
        if told.outcome != answer || told.kind != event.part.measures() {
            self.wrong = self.wrong.wrapping_add(1);
        }
    }

    // How much is wrong with two runs of a block. What one of them lacks differs at its place.
    pub(crate) fn differences(&self, other: &Ran) -> usize {
        let events = self.digests.iter().zip(&other.digests);
        let others = events.filter(|(a, b)| **a != **b).count();
        let wrong = self.wrong.wrapping_add(other.wrong);
        let measured = usize::from(self.measured != other.measured);
        let record = usize::from(!same::same_port(self.port, other.port));
        others
            .wrapping_add(wrong)
            .wrapping_add(measured)
            .wrapping_add(record)
    }
}

// One of the two orders, from the first block on: its packet buffer, which has the room that a port asks for, and its counts.
#[derive(Drop)]
pub struct Side {
    packet: [u8; 64],
    pub counts: Counts,
}

impl Side {
    // With a buffer full of this byte.
    pub(crate) fn new(byte: u8) -> Side {
        Side {
            packet: [byte; 64],
            counts: Counts::default(),
        }
    }

    // A block from a record on.
    pub(crate) fn run(&mut self, port: Port, order: &[Happening]) -> Ran {
        let mut ran = Ran {
            port,
            digests: [Digest::new(); 24],
            measured: Digest::new(),
            wrong: 0,
        };
        for event in order {
            let running = Running { record: ran.port };
            let answer = bringing::bring(running, *event, &mut self.packet);
            let told = Told::new(answer, &self.packet);
            self.counts.add_part(event.part);
            self.counts.add_measured(told.kind);
            ran.note(*event, told);
            ran.port = answer.port;
        }
        ran
    }
}
