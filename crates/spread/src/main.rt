//! Spreads records over the nodes of each code, silences every set of nodes that a code bears, and
//! rebuilds the record from what the others hold.
//!
//! Standard input has one record a line, as 48 hex digits.
#![tactic(auto)]

mod hex;
mod trials;

use code::{C3, C5, Code};
use hex::Hex;
use parity::P6;
use record::{Record, RecordError};
use std::alloc::Global;
use std::fmt;
use std::io::{BufRead, BufReader};
use trials::{Nodes, Survival};
use whiten::W6;

/// A code with the name that the output gives it.
trait Named: Code {
    const NAME: &'static str;
}

impl Named for C3 {
    const NAME: &'static str = "C3";
}

impl Named for C5 {
    const NAME: &'static str = "C5";
}

impl Named for P6 {
    const NAME: &'static str = "P6";
}

impl Named for W6 {
    const NAME: &'static str = "W6";
}

/// The five fields of a record, parted by tabs.
#[derive(Clone, Copy)]
struct Fields<'a>(&'a Record);

impl fmt::Display for Fields<'_> {
    fn fmt<W: fmt::Write>(&self, f: &mut fmt::Formatter<W>) -> fmt::Result {
        let Record {
            parameter,
            unit,
            exponent,
            name,
            number,
        } = self.0;
        write!(f, "{parameter}\t{unit}\t{exponent}\t{name}\t{number}")
    }
}

/// The fields of what came back, or nothing where nothing did.
#[derive(Clone, Copy)]
struct GivenBack(Option<Record>);

impl fmt::Display for GivenBack {
    fn fmt<W: fmt::Write>(&self, f: &mut fmt::Formatter<W>) -> fmt::Result {
        match &self.0 {
            Some(record) => write!(f, "{}", Fields(record)),
            None => Ok(()),
        }
    }
}

// The record of a line, or its refusal: what is not 48 hex digits is not 24 bytes.
fn record_of(line: &[u8]) -> Result<Record, RecordError> {
    Record::from_bytes(&hex::bytes_of(line).ok_or(RecordError::Length)?)
}

// A line for each node, with its piece.
fn show_pieces<C: Named>(rt: &impl Print, nodes: &Nodes<C>) -> anyhow::Result<()> {
    for (node, piece) in nodes.pieces().iter().enumerate() {
        println!(rt; "{} node {node} {}", C::NAME, Hex(piece.as_slice()))?;
    }
    Ok(())
}

// From how many choices of silent nodes a record came back, and what came back.
// One print for the line: each print is a write of its own, and between two a reader would meet half a line.
fn show_survival<C: Named>(rt: &impl Print, all: Survival) -> anyhow::Result<()> {
    let Survival {
        choices,
        survived,
        rebuilt,
    } = all;
    let back = GivenBack(rebuilt.and_then(|bytes| Record::from_bytes(&bytes).ok()));
    println!(rt;
        "{} with {} silent: {survived} of {choices} choices give back\t{back}",
        C::NAME,
        C::F
    )?;
    Ok(())
}

// Spreads a record, and silences as many nodes as the code bears.
fn show<C: Named>(rt: &(impl Print + Alloc<A = Global>), record: &Record) -> anyhow::Result<()> {
    let nodes = Nodes::<C>::of(rt.alloc(), &record.to_bytes())?;
    show_pieces(rt, &nodes)?;
    show_survival::<C>(rt, nodes.silence_all()?)
}

fn answer(rt: &(impl Print + Alloc<A = Global>), line: &[u8]) -> anyhow::Result<()> {
    match record_of(line) {
        Ok(record) => {
            println!(rt; "{}", Fields(&record))?;
            show::<C3>(rt, &record)?;
            show::<C5>(rt, &record)?;
            show::<P6>(rt, &record)?;
            show::<W6>(rt, &record)
        }
        Err(e) => {
            println!(rt; "NO {}", e.number())?;
            Ok(())
        }
    }
}

fn run(rt: &(impl Input + Print + Alloc<A = Global>)) -> anyhow::Result<()> {
    // Buffered: from a pipe the runtime's own reader takes one byte at a time.
    for line in BufReader::new(rt.alloc(), rt.reader())?.split(rt.alloc(), b'\n') {
        answer(rt, line?.as_slice())?;
    }
    Ok(())
}

fn main(rt: HostRuntime) -> anyhow::Result<()> {
    run(&rt)
}
