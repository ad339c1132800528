//! Runs of requests over files, crashed at each disk call to either file.

use crate::storage::files::{create_in_files, rows_in, run_until_fault, session};
use crate::storage::held::Disks;
use crate::storage::images::{ClubFile, Image, Stop, Stoppable, empty_files, stop_everywhere};
use crate::storage::rows::StoredRows;
use anyhow::{Context, Result, bail};
use club_requests::{Outcome, Request};
use sqlite::Options;
use std::alloc::Global;
use store::OpenFault;

/// What was answered before the crash.
#[derive(Clone, Copy, PartialEq)]
enum Done {
    /// The creation of the club was not answered.
    Nothing,
    /// The club was created, and this many requests were answered.
    Requests(usize),
}

/// The files before a run.
#[derive(Drop)]
pub enum CourseStart {
    /// Both files are empty; the run begins with the creation of a club with or without an arbiter.
    Nothing { has_arbiter: bool },
    /// The files of a club.
    Club(Image),
}

impl CourseStart {
    /// Whether the run begins with the creation of a club with an arbiter.
    fn creates_arbiter(&self) -> bool {
        match self {
            CourseStart::Nothing { has_arbiter } => *has_arbiter,
            CourseStart::Club(_) => false,
        }
    }

    /// A club in files with this injected crash, or the reason why there is none.
    fn club(
        &self,
        alloc: Global,
        stop: Stop,
        options: Options,
    ) -> Result<(Result<(), OpenFault>, Disks)> {
        match self {
            CourseStart::Nothing { has_arbiter } => {
                let files = empty_files(alloc, stop);
                Ok(create_in_files(alloc, files, options, *has_arbiter))
            }
            CourseStart::Club(image) => Ok((Ok(()), image.files(alloc, stop)?)),
        }
    }
}

/// Requests to a club, their results without a crash, and the rows before the first and after each.
#[derive(Drop)]
struct Course<'a> {
    start: CourseStart,
    requests: &'a [Request],
    /// The checkpoint threshold in frames of the log.
    frames: usize,
    outcomes: Vec<String>,
    rows: Vec<StoredRows>,
}

fn outcome_texts(alloc: Global, outcomes: &[Outcome]) -> Result<Vec<String>> {
    let mut texts = Vec::new(alloc);
    for outcome in outcomes {
        texts.push(format!(in alloc; "{outcome}")?)?;
    }
    Ok(texts)
}

/// The expected answer to a repeated request, given its first answer: an accepted one is repeated, but a sweep finds no
/// more games to end.
fn answered_again(alloc: Global, outcome: &str) -> Result<String> {
    match outcome.strip_prefix("accepted ") {
        Some(answer) if answer.starts_with("sweep") => {
            Ok(String::from_str(alloc, "accepted sweep 0")?)
        }
        Some(answer) => Ok(format!(in alloc; "repeated {answer}")?),
        None => Ok(String::from_str(alloc, outcome)?),
    }
}

impl<'a> Course<'a> {
    /// Runs the requests without a crash, each in a session of its own; returns the run and its files.
    fn unstopped(
        alloc: Global,
        start: CourseStart,
        requests: &'a [Request],
        frames: usize,
    ) -> Result<(Course<'a>, Disks)> {
        let (made, files) = start.club(alloc, Stop::Never, Options::new(1))?;
        made?;
        let (mut outcomes, mut rows) = (Vec::new(alloc), Vec::new(alloc));
        let (first, mut files) = rows_in(alloc, files);
        rows.push(first?)?;
        for request in requests {
            let (run, left) = session(alloc, files, std::slice::from_ref(request));
            let (after, left) = rows_in(alloc, left);
            let run = run?;
            let outcome = run.outcomes.first().context("a request is not answered")?;
            outcomes.push(format!(in alloc; "{outcome}")?)?;
            rows.push(after?)?;
            files = left;
        }
        let course = Course {
            start,
            requests,
            frames,
            outcomes,
            rows,
        };
        Ok((course, files))
    }

    fn options(&self) -> Options {
        Options {
            checkpoint_frames: self.frames,
            ..Options::new(1)
        }
    }

    /// Runs up to the crash; returns what was answered and the files.
    fn stopped(&self, alloc: Global, stop: Stop) -> Result<(Done, Disks)> {
        let (made, files) = self.start.club(alloc, stop, self.options())?;
        match made {
            Ok(()) => {}
            Err(OpenFault::Store) => return Ok((Done::Nothing, files)),
            Err(fault) => bail!("a stop is told as {fault}"),
        }
        let (outcomes, left) = run_until_fault(alloc, files, self.requests, self.options());
        let texts = outcome_texts(alloc, &outcomes?)?;
        if self.outcomes.get(..texts.len()) != Some(texts.as_slice()) {
            bail!("other outcomes than where nothing stops them");
        }
        Ok((Done::Requests(texts.len()), left))
    }

    /// The expected answer to the request with this index, by whether it has taken effect already.
    fn due(&self, alloc: Global, number: usize, stands: bool) -> Result<String> {
        let outcome = self.outcomes.get(number).context("no such request")?;
        if stands {
            return answered_again(alloc, outcome.as_str());
        }
        Ok(String::from_str(alloc, outcome.as_str())?)
    }

    /// Whether the requests from index `from` on have the expected answers and leave the final rows. `stands` says
    /// whether the first has taken effect already.
    fn goes_on(&self, alloc: Global, files: Disks, from: usize, stands: bool) -> Result<bool> {
        let (run, files) = session(alloc, files, self.requests.get(from..).unwrap_or(&[]));
        let texts = outcome_texts(alloc, &run?.outcomes)?;
        let (rows, _files) = rows_in(alloc, files);
        if from.checked_add(texts.len()) != Some(self.outcomes.len()) {
            return Ok(false);
        }
        if Some(&rows?) != self.rows.last() {
            return Ok(false);
        }
        for (index, text) in texts.iter().enumerate() {
            if *text != self.due(alloc, from.saturating_add(index), stands && index == 0)? {
                return Ok(false);
            }
        }
        Ok(true)
    }

    /// Whether the files hold the rows after `answered` requests, or after one more, and the other requests can follow.
    fn is_whole(&self, alloc: Global, files: Disks, answered: usize) -> Result<bool> {
        let (rows, files) = rows_in(alloc, files);
        let rows = rows?;
        let before = self.rows.get(answered) == Some(&rows);
        let after = self.rows.get(answered.saturating_add(1)) == Some(&rows);
        if !before && !after {
            return Ok(false);
        }
        self.goes_on(alloc, files, answered, !before)
    }

    /// Whether files with these bytes hold an expected state. If the creation of the club was cut off, there is an
    /// empty club, or none and it can be created.
    fn is_found_whole(&self, alloc: Global, done: Done, image: &Image) -> Result<bool> {
        let (run, files) = session(alloc, image.files(alloc, Stop::Never)?, &[]);
        match (run, done) {
            (Ok(_), Done::Nothing) => self.is_whole(alloc, files, 0),
            (Ok(_), Done::Requests(answered)) => self.is_whole(alloc, files, answered),
            (Err(OpenFault::Foreign), Done::Nothing) => {
                let has_arbiter = self.start.creates_arbiter();
                let (made, files) = create_in_files(alloc, files, Options::new(1), has_arbiter);
                made?;
                self.is_whole(alloc, files, 0)
            }
            (Err(fault), _) => bail!("what is found is refused as {fault}"),
        }
    }
}

impl Stoppable for Course<'_> {
    fn try_stop(&self, alloc: Global, file: ClubFile, calls: u64) -> Result<Option<bool>> {
        let (done, left) = self.stopped(alloc, file.stop(calls))?;
        let mut left = left;
        let is_over = done == Done::Requests(self.requests.len()) && file.goes_on(&mut left);
        let written = Image::written_image(alloc, &left)?;
        let synced = Image::synced_image(alloc, left)?;
        let is_whole = self.is_found_whole(alloc, done, &written)?
            && (synced == written || self.is_found_whole(alloc, done, &synced)?);
        Ok(is_whole.then_some(is_over))
    }
}

/// A run that recovers from a crash at each disk call.
#[derive(Drop)]
pub struct WholeCourse {
    /// The results without a crash.
    pub outcomes: Vec<String>,
    /// The files after the run.
    pub files: Disks,
    /// The number of injected crashes.
    pub stops: u64,
}

/// Runs the requests with a crash at each disk call; an error if an unexpected state is found after one.
pub fn whole_at_each_stop(
    alloc: Global,
    start: CourseStart,
    requests: &[Request],
    frames: usize,
) -> Result<WholeCourse> {
    let (course, files) = Course::unstopped(alloc, start, requests, frames)?;
    let stops = stop_everywhere(alloc, &course)?;
    Ok(WholeCourse {
        outcomes: course.outcomes,
        files,
        stops,
    })
}
