//! The tables of a club and the versions of its schema.

use std::fmt;

/// The version of a club's schema. Each version has the tables of those before it.
#[derive(Debug, Clone, Copy, PartialEq, Eq)]
pub enum Version {
    /// Schema 1: members, events, challenges, games and scores.
    V1,
    /// Schema 2: also the rules of events.
    V2,
    /// Schema 3: also the arbiter's tables: later keys, rulings and closed events.
    V3,
}

impl Version {
    ghost use Rattle.std.specs.Prelude.{◌≡◌, ◌≢◌, pos, None, IfSome};
    ghost use Rattle.store_tables.specs.Names.{table_count};
    ghost use Rattle.store_tables.specs.Tables.{schema_number};
    ghost use Rattle.store_tables.specs.declared.names.Version.{Version};

    /// The number of the schema in `meta`.
    pub fn number(self) -> i64
        ensures { result ≡ pos (schema_number self) }
    {
        match self {
            Version::V1 => 1,
            Version::V2 => 2,
            Version::V3 => 3,
        }
    }

    /// The schema with this number in `meta`; `None` if the program does not know it.
    pub fn from_number(number: i64) -> Option<Version>
        ensures some { IfSome result (λ version. number ≡ pos (schema_number version)) }
        ensures none { result ≡ None → (version : Version) → number ≢ pos (schema_number version) }
    {
        match number {
            1 => Some(Version::V1),
            2 => Some(Version::V2),
            3 => Some(Version::V3),
            _ => None,
        }
    }

    /// How many of `Table::ALL` the schema has: the first ones.
    pub fn table_count(self) -> usize
        ensures { result ≡ table_count self }
    {
        match self {
            Version::V1 => 8,
            Version::V2 => 9,
            Version::V3 => 12,
        }
    }
}

/// A table of a club.
#[derive(Debug, Clone, Copy, PartialEq, Eq)]
pub enum Table {
    Members,
    Events,
    EventRules,
    Challenges,
    Moves,
    Games,
    Seen,
    Scores,
    Meta,
    Keys,
    Rulings,
    Closings,
}

impl Table {
    ghost use Rattle.std.specs.Prelude.{◌≡◌};
    ghost use Rattle.store_tables.specs.Names.{table_name};

    /// All tables in the order in which they are created. Each schema has the first `Version::table_count` of them.
    pub const ALL: [Table; 12] = [
        Table::Meta,
        Table::Members,
        Table::Events,
        Table::Challenges,
        Table::Moves,
        Table::Games,
        Table::Seen,
        Table::Scores,
        Table::EventRules,
        Table::Keys,
        Table::Rulings,
        Table::Closings,
    ];

    /// The name of the table in SQL.
    pub fn name(self) -> &'static str
        ensures { result.now ≡ table_name self }
    {
        match self {
            Table::Members => "members",
            Table::Events => "events",
            Table::EventRules => "event_rules",
            Table::Challenges => "challenges",
            Table::Moves => "moves",
            Table::Games => "games",
            Table::Seen => "seen",
            Table::Scores => "scores",
            Table::Meta => "meta",
            Table::Keys => "keys",
            Table::Rulings => "rulings",
            Table::Closings => "closings",
        }
    }
}

impl fmt::Display for Table {
    ghost use Rattle.std.specs.Prelude.{Some};
    ghost use Rattle.store_tables.specs.Names.{table_name};

    ghost output = { λ table. Some (table_name table) };

    fn fmt<W: fmt::Write>(&self, f: &mut fmt::Formatter<W>) -> fmt::Result {
        f.write_str(self.name())
    }
}
