//! Offers that are applied: they are read one after another, and a refusal tells of their tables.

use catalogue_join::Held;
use command_line::Source;
use program_failures::{Failure, unread_by};
use program_inputs::{Host, Progress, SourceReader, is_folder, source_of};
use refusal_sentences::{CommandRefusal, Printable};
use replica_store::Offer;
use std::alloc::{AllocError, Global};
use table_model::{Refusal, Schema};

/// The offers of these sources, one after another.
pub fn read_offers<'r, R: Host>(
    rt: &'r R,
    progress: &'r Progress<'r, R>,
    sources: &[Source<'_>],
) -> Result<Vec<Offer>, Failure> {
    let mut offers = Vec::new(rt.alloc());
    for source in sources {
        let mut reader = source_of(rt, progress, *source);
        match column_file::read_offer(rt.alloc(), &mut reader) {
            Ok(offer) => offers.push(offer)?,
            Err(refusal) => return Err(unread_offer(rt, refusal, *source, reader)),
        }
    }
    Ok(offers)
}

/// A refusal of an offer. A folder is not one: its parts are.
fn unread_offer<R: Host>(
    rt: &R,
    refusal: Refusal,
    source: Source<'_>,
    reader: SourceReader<'_, '_, R>,
) -> Failure {
    match source {
        Source::File(name) if refusal == Refusal::ReadFault && is_folder(rt, name) => {
            no_offer(rt.alloc(), refusal, name)
        }
        _ => unread_by(rt, CommandRefusal::from(refusal), source, reader),
    }
}

/// The refusal of a folder of this name that is no offer, and what to apply instead.
fn no_offer(alloc: Global, refusal: Refusal, name: &str) -> Failure {
    let folder = Printable(name.trim_end_matches('/'));
    let refusal = CommandRefusal::from(refusal);
    match format!(in alloc; "this is a folder: apply its parts, as {folder}/*.lanes") {
        Ok(words) => Failure::advised(alloc, refusal, name, words.as_str()),
        Err(lacking) => Failure::from(lacking),
    }
}

/// The table of the first of some offers, and that of the first one of another table, with its index.
#[derive(Drop)]
pub struct OfferTables {
    first: Option<Schema>,
    other: Option<(usize, Schema)>,
}

impl OfferTables {
    /// The tables of these offers.
    pub fn of(alloc: Global, offers: &[Offer]) -> Result<OfferTables, AllocError> {
        let Some(first) = offers.first() else {
            return Ok(OfferTables {
                first: None,
                other: None,
            });
        };
        let other = match first_other(offers, first.schema()) {
            Some((index, found)) => Some((index, found.copy(alloc)?)),
            None => None,
        };
        Ok(OfferTables {
            first: Some(first.schema().copy(alloc)?),
            other,
        })
    }

    /// The table of the first offer that is of another table than this one, if there is one, with its index.
    pub fn other_than(&self, wanted: &Schema) -> Option<(usize, &Schema)> {
        match (&self.first, &self.other) {
            (Some(first), _) if !first.same(wanted) => Some((0, first)),
            (_, Some((index, found))) => Some((*index, found)),
            _ => None,
        }
    }
}

/// The table of the first of these offers that is of another table than this one, if there is one, with its index.
fn first_other<'a>(offers: &'a [Offer], wanted: &Schema) -> Option<(usize, &'a Schema)> {
    for (index, offer) in offers.iter().enumerate() {
        if !offer.schema().same(wanted) {
            return Some((index, offer.schema()));
        }
    }
    None
}

/// The names of the batches that offers bring.
pub fn batches_of(alloc: Global, offers: &[Offer]) -> Result<Held, AllocError> {
    let mut names = Held::new(alloc);
    for offer in offers {
        add_batches(&mut names, offer)?;
    }
    Ok(names)
}

/// Adds the names of an offer's batches.
fn add_batches(names: &mut Held, offer: &Offer) -> Result<(), AllocError> {
    for (name, _) in offer.entries() {
        if name.is_proper() {
            names.insert(*name)?;
        }
    }
    Ok(())
}
