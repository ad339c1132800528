//! Named texts of a script, for use in later lines.

use crate::rules::unanswered::Unanswered;
use std::alloc::Global;

#[derive(Drop)]
struct Named {
    name: String,
    text: String,
}

/// The named texts.
#[derive(Drop)]
pub struct Texts {
    alloc: Global,
    named: Vec<Named>,
}

impl Texts {
    /// No texts.
    pub fn new(alloc: Global) -> Texts {
        Texts {
            alloc,
            named: Vec::new(alloc),
        }
    }

    fn find(&self, name: &str) -> Option<&str> {
        for named in &self.named {
            if named.name.as_str() == name {
                return Some(named.text.as_str());
            }
        }
        None
    }

    /// The line with each name between `<` and `>` replaced by its text.
    pub fn expand_names(&self, line: &str) -> Result<String, Unanswered> {
        let mut text = String::new(self.alloc);
        let mut is_first = true;
        for part in line.split('<') {
            if is_first {
                text.push_str(part)?;
                is_first = false;
            } else {
                let (name, rest) = part.split_once('>').ok_or(Unanswered::Name)?;
                text.push_str(self.find(name).ok_or(Unanswered::Name)?)?;
                text.push_str(rest)?;
            }
        }
        Ok(text)
    }

    // Defines a text, repeated `times` times, under a new name.
    fn give_times(&mut self, name: &str, times: usize, text: &str) -> Result<(), Unanswered> {
        if self.find(name).is_some() {
            return Err(Unanswered::Name);
        }
        let mut whole = String::new(self.alloc);
        for _ in 0..times {
            whole.push_str(text)?;
        }
        let name = String::from_str(self.alloc, name)?;
        self.named.push(Named { name, text: whole })?;
        Ok(())
    }

    /// Defines a text; the heading is its name, or its name, a `|` and the number of repetitions.
    pub fn give(&mut self, heading: &str, text: &str) -> Result<(), Unanswered> {
        match heading.split_once('|') {
            Some((name, times)) => self.give_times(name.trim(), times.trim().parse()?, text),
            None => self.give_times(heading.trim(), 1, text),
        }
    }
}
