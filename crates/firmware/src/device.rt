//! One maker's device on the bus: what it is called, its session, and where what it reads is put.
use crate::words::{Parts, Value, does};
use parity::P6;
use record::Record;
use segment::{Fetched, Refusal, Segment, Sight};
use session::Session;

/// The segment that the devices share.
pub(crate) type Bus = Segment<P6>;

/// A device that is on. It holds a session, so it has to leave or park: it has no `Drop`.
pub(crate) struct Device {
    name: &'static str,
    session: Session,
    seen: Record,
}

impl Device {
    /// Signs a device on. The line is printed first: after a print that fails, a session that is there could not be let go.
    pub(crate) fn on(
        rt: &impl Print,
        bus: &mut Bus,
        name: &'static str,
        client: u32,
        seen: Record,
    ) -> anyhow::Result<Device> {
        println!(rt; "{name}: signs on as client {client}")?;
        let session = Session::sign_on(bus, client)?;
        Ok(Device {
            name,
            session,
            seen,
        })
    }

    pub(crate) fn write(
        &self,
        rt: &impl Print,
        bus: &mut Bus,
        wanted: &Record,
    ) -> anyhow::Result<()> {
        println!(rt; "{}: writes {}", self.name, Parts(*wanted))?;
        self.session.begin_write(bus, wanted)?;
        Ok(())
    }

    pub(crate) fn read(&self, rt: &impl Print, bus: &mut Bus, rounds: u32) -> anyhow::Result<()> {
        println!(rt; "{}: reads, in {rounds} rounds at most", self.name)?;
        self.session.begin_read(bus, rounds)?;
        Ok(())
    }

    /// Some nodes carry out the device's request one after the other, and it fetches their answers.
    pub(crate) fn ask_each(
        &mut self,
        rt: &impl Print,
        bus: &mut Bus,
        nodes: &[u32],
    ) -> anyhow::Result<()> {
        for &node in nodes {
            self.ask(rt, bus, node)?;
        }
        Ok(())
    }

    // The bus carries the request by the client's number. What comes back is fetched by the session.
    fn ask(&mut self, rt: &impl Print, bus: &mut Bus, node: u32) -> anyhow::Result<()> {
        let round = bus.take(self.session.client(), node)?;
        let (name, what) = (self.name, does(round));
        println!(rt; "node {node} answers the {name}'s {what}")?;
        let mut seen = self.seen;
        let fetched = self.session.fetch(bus, node, &mut seen)?;
        self.seen = seen;
        self.tell(rt, fetched)
    }

    // What an answer came to.
    fn tell(&self, rt: &impl Print, fetched: Fetched) -> anyhow::Result<()> {
        let name = self.name;
        match fetched {
            Fetched::Kept => {}
            Fetched::NextRound => println!(rt; "{name}: goes on to its next round")?,
            Fetched::Wrote(stamp) => println!(rt;
                "{name}: has written, under count {} of client {}",
                stamp.count, stamp.client
            )?,
            Fetched::Read(reading) => {
                let sight = match reading.sight {
                    Sight::New => "new",
                    Sight::Same => "the same as before",
                };
                println!(rt;
                    "{name}: read {}, round {}, {sight}",
                    Value(self.seen),
                    reading.rounds
                )?
            }
            Fetched::Ended(ending) => println!(rt; "{name}: ended with nothing, since {ending}")?,
        }
        Ok(())
    }

    /// Signs the device off, or gives it back with the refusal.
    pub(crate) fn sign_off(self, bus: &mut Bus) -> Result<(), (Device, Refusal)> {
        let Device {
            name,
            session,
            seen,
        } = self;
        session.sign_off(bus).map_err(|(session, refusal)| {
            let back = Device {
                name,
                session,
                seen,
            };
            (back, refusal)
        })
    }

    /// Signs the device off. Where that is refused its session is parked, and nothing of it is left.
    pub(crate) fn leave(self, bus: &mut Bus) -> Result<(), Refusal> {
        self.sign_off(bus).map_err(|(back, refusal)| {
            back.park();
            refusal
        })
    }

    /// Parks the device's session, and gives the number by which its client is called from then on.
    pub(crate) fn park(self) -> u32 {
        let Device {
            name: _,
            session,
            seen: _,
        } = self;
        session.park()
    }
}
