//! A panel and a controller on one segment, as makers' firmware would run them, with every step told in words.
//!
//! The segment has six nodes under double parity. Nodes answer out of turn, some only after many steps, and node 3 never does.
#![tactic(auto)]

mod device;
mod words;

use anyhow::bail;
use device::{Bus, Device};
use record::{Record, RecordError};
use segment::Refusal;
use words::Value;

// The client numbers that the two have on the segment.
const PANEL: u32 = 0;

const CONTROLLER: u32 = 1;

// A pressure for the oven, in tenths of a bar.
fn pressure(tenths: i32) -> Result<Record, RecordError> {
    Record::new(7, 'b', -1, b"oven            ", tenths)
}

// The panel's write has begun and waits for slow nodes, while the controller reads: it finds the first record.
fn write_begins(
    rt: &impl Print,
    bus: &mut Bus,
    panel: &mut Device,
    controller: &mut Device,
) -> anyhow::Result<()> {
    panel.write(rt, bus, &pressure(50)?)?;
    panel.ask_each(rt, bus, &[0, 2, 1])?;
    controller.read(rt, bus, 3)?;
    controller.ask_each(rt, bus, &[5, 4, 2, 1, 0])
}

// The panel is not let off with its write open.
fn stays(rt: &impl Print, refusal: Refusal) -> anyhow::Result<()> {
    println!(rt; "panel: it may not sign off, since {refusal}; it goes on with its session")?;
    Ok(())
}

// The panel's write goes on to its end. Half the nodes answer the controller before they store the record, and the others
// after they settled it: from these answers nothing can be read, so the controller looks again.
fn write_ends(
    rt: &impl Print,
    bus: &mut Bus,
    panel: &mut Device,
    controller: &mut Device,
) -> anyhow::Result<()> {
    panel.ask_each(rt, bus, &[5, 4])?;
    controller.read(rt, bus, 3)?;
    panel.ask_each(rt, bus, &[4, 5])?;
    controller.ask_each(rt, bus, &[0, 1])?;
    panel.ask_each(rt, bus, &[1])?;
    controller.ask_each(rt, bus, &[2])?;
    panel.ask_each(rt, bus, &[0, 2])?;
    panel.ask_each(rt, bus, &[0, 5, 4])?;
    controller.ask_each(rt, bus, &[4])?;
    panel.ask_each(rt, bus, &[2, 1])?;
    controller.ask_each(rt, bus, &[5])?;
    controller.ask_each(rt, bus, &[2, 0, 5, 1, 4])
}

// The controller signs off. The panel parks its session, and a call by its number signs it off.
fn both_leave(
    rt: &impl Print,
    bus: &mut Bus,
    panel: Device,
    controller: Device,
) -> anyhow::Result<()> {
    let left = controller.leave(bus);
    let number = panel.park();
    left?;
    println!(rt; "controller: signs off")?;
    println!(rt; "panel: parks its session, and is still on as client {number}")?;
    bus.sign_off(number)?;
    println!(rt; "client {number} is signed off by its number")?;
    Ok(())
}

// Both at work. The panel tries to sign off while its write is open: it gets its session back, and uses it on.
fn work(
    rt: &impl Print,
    bus: &mut Bus,
    mut panel: Device,
    mut controller: Device,
) -> anyhow::Result<()> {
    // A `?` would drop a live session, so what fails waits until both have left.
    let begun = write_begins(rt, bus, &mut panel, &mut controller);
    let (mut panel, refusal) = match panel.sign_off(bus) {
        Err(back) => back,
        Ok(()) => {
            controller.park();
            begun?;
            bail!("the panel is off, with its write open");
        }
    };
    let ended = begun
        .and_then(|()| stays(rt, refusal))
        .and_then(|()| write_ends(rt, bus, &mut panel, &mut controller));
    let left = both_leave(rt, bus, panel, controller);
    ended?;
    left
}

fn run(rt: &impl Print) -> anyhow::Result<()> {
    let first = pressure(20)?;
    let mut bus = Bus::lay_out(2, 0, &first)?;
    println!(rt;
        "six nodes hold {} between them; node 3 stays silent",
        Value(first)
    )?;
    let panel = Device::on(rt, &mut bus, "panel", PANEL, first)?;
    match Device::on(rt, &mut bus, "controller", CONTROLLER, first) {
        Ok(controller) => work(rt, &mut bus, panel, controller),
        Err(e) => {
            panel.park();
            Err(e)
        }
    }
}

fn main(rt: HostRuntime) -> anyhow::Result<()> {
    run(&rt)
}
