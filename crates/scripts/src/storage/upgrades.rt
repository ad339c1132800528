//! Upgrades that are crashed at each disk call to either file.

use crate::storage::files::{rows_in, upgrade_in};
use crate::storage::held::Disks;
use crate::storage::images::{ClubFile, Image, Stop, Stoppable, stop_everywhere};
use crate::storage::rows::StoredRows;
use anyhow::{Result, bail};
use std::alloc::Global;
use store::{OpenFault, Upgrade};

/// An upgrade: the files before it, whether it gives the club an arbiter, and the rows after it.
#[derive(Drop)]
struct Trial {
    image: Image,
    has_arbiter: bool,
    after: StoredRows,
}

impl Trial {
    /// Whether files with these bytes hold the schema before or the one after: an upgrade has the result that it has
    /// without a crash, and it is a repeat if the first was answered.
    fn is_found_whole(&self, alloc: Global, answered: bool, image: &Image) -> Result<bool> {
        let (upgraded, files) = upgrade_in(
            alloc,
            image.files(alloc, Stop::Never)?,
            self.has_arbiter,
        );
        let (rows, _files) = rows_in(alloc, files);
        let is_new = upgraded? == Upgrade::Already(self.after.version);
        Ok(rows? == self.after && (is_new || !answered))
    }
}

impl Stoppable for Trial {
    fn try_stop(&self, alloc: Global, file: ClubFile, calls: u64) -> Result<Option<bool>> {
        let files = self.image.files(alloc, file.stop(calls))?;
        let (upgraded, left) = upgrade_in(alloc, files, self.has_arbiter);
        let answered = match upgraded {
            Ok(Upgrade::Done(_)) => true,
            Ok(Upgrade::Already(_)) => bail!("upgraded already"),
            Err(OpenFault::Store) => false,
            Err(fault) => bail!("a stop is told as {fault}"),
        };
        let mut left = left;
        let is_over = answered && file.goes_on(&mut left);
        let written = Image::written_image(alloc, &left)?;
        let synced = Image::synced_image(alloc, left)?;
        let is_whole = self.is_found_whole(alloc, answered, &written)?
            && (synced == written || self.is_found_whole(alloc, answered, &synced)?);
        Ok(is_whole.then_some(is_over))
    }
}

/// The result of an upgrade, as the program prints it.
pub fn told_upgrade(alloc: Global, upgraded: Result<Upgrade, OpenFault>) -> Result<String> {
    match upgraded {
        Ok(Upgrade::Done(_)) => Ok(String::from_str(alloc, "upgraded")?),
        Ok(Upgrade::Already(_)) => Ok(String::from_str(alloc, "repeated upgrade")?),
        Err(fault) => Ok(format!(in alloc; "{fault}")?),
    }
}

/// An upgrade that recovers from a crash at each disk call.
#[derive(Drop)]
pub struct WholeUpgrade {
    /// The result without a crash.
    pub told: String,
    /// The number of injected crashes.
    pub stops: u64,
}

/// Upgrades the files to a club with or without an arbiter, with a crash at each disk call; an error if an unexpected
/// state is found after one.
pub fn whole_or_old(alloc: Global, files: &Disks, has_arbiter: bool) -> Result<WholeUpgrade> {
    let image = Image::written_image(alloc, files)?;
    let (upgraded, left) = upgrade_in(alloc, image.files(alloc, Stop::Never)?, has_arbiter);
    let (after, _files) = rows_in(alloc, left);
    let told = told_upgrade(alloc, upgraded)?;
    let trial = Trial {
        image,
        has_arbiter,
        after: after?,
    };
    let stops = stop_everywhere(alloc, &trial)?;
    Ok(WholeUpgrade { told, stops })
}
