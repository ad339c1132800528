//! The SQL statements of each table.

use crate::names::Table;

const CREATE_META: &str =
    "CREATE TABLE meta (id INTEGER PRIMARY KEY, schema INTEGER NOT NULL, last INTEGER NOT NULL) STRICT";

const CREATE_MEMBERS: &str =
    "CREATE TABLE members (id INTEGER PRIMARY KEY, name TEXT NOT NULL UNIQUE, key TEXT NOT NULL UNIQUE) STRICT";

const CREATE_EVENTS: &str =
    "CREATE TABLE events (id INTEGER PRIMARY KEY, name TEXT NOT NULL UNIQUE, game INTEGER NOT NULL, budget INTEGER NOT NULL, increment INTEGER NOT NULL) STRICT";

const CREATE_CHALLENGES: &str =
    "CREATE TABLE challenges (member INTEGER NOT NULL, number INTEGER NOT NULL, event INTEGER NOT NULL, other INTEGER NOT NULL, first INTEGER NOT NULL, state INTEGER NOT NULL, game INTEGER, PRIMARY KEY (member, number)) STRICT";

const CREATE_MOVES: &str =
    "CREATE TABLE moves (game INTEGER NOT NULL, ply INTEGER NOT NULL, text TEXT NOT NULL, moment INTEGER NOT NULL, left INTEGER NOT NULL, position TEXT NOT NULL, PRIMARY KEY (game, ply)) STRICT";

const CREATE_GAMES: &str =
    "CREATE TABLE games (id INTEGER PRIMARY KEY, key TEXT UNIQUE, event INTEGER NOT NULL, first INTEGER NOT NULL, second INTEGER NOT NULL, start INTEGER NOT NULL, since INTEGER NOT NULL, plies INTEGER NOT NULL, left1 INTEGER NOT NULL, left2 INTEGER NOT NULL, offer_side INTEGER, offer_ply INTEGER, end TEXT, result TEXT, position TEXT NOT NULL, track_a INTEGER NOT NULL, track_b INTEGER NOT NULL) STRICT";

const CREATE_SEEN: &str =
    "CREATE TABLE seen (game INTEGER NOT NULL, position TEXT NOT NULL, count INTEGER NOT NULL, first_ply INTEGER NOT NULL, PRIMARY KEY (game, position)) STRICT";

const CREATE_SCORES: &str =
    "CREATE TABLE scores (event INTEGER NOT NULL, member INTEGER NOT NULL, opponent INTEGER NOT NULL, points INTEGER NOT NULL, wins INTEGER NOT NULL, draws INTEGER NOT NULL, losses INTEGER NOT NULL, PRIMARY KEY (event, member, opponent)) STRICT";

/// Schema 1 has no such table.
const CREATE_EVENT_RULES: &str =
    "CREATE TABLE event_rules (event INTEGER PRIMARY KEY, declares INTEGER NOT NULL) STRICT";

const CREATE_KEYS: &str =
    "CREATE TABLE keys (member INTEGER NOT NULL, number INTEGER NOT NULL, key TEXT NOT NULL UNIQUE, PRIMARY KEY (member, number)) STRICT";

const CREATE_RULINGS: &str =
    "CREATE TABLE rulings (game INTEGER NOT NULL, number INTEGER NOT NULL, moment INTEGER NOT NULL, ply INTEGER NOT NULL, kind INTEGER NOT NULL, seconds INTEGER NOT NULL, result TEXT, beneath TEXT, beneath_result TEXT, PRIMARY KEY (game, number)) STRICT";

const CREATE_CLOSINGS: &str =
    "CREATE TABLE closings (event INTEGER PRIMARY KEY, moment INTEGER NOT NULL) STRICT";

impl Table {
    ghost use Rattle.std.specs.Prelude.{◌≡◌};
    ghost use Rattle.store_tables.specs.Tables.{standing};
    ghost use Rattle.store_tables.specs.internal.Texts.{create_of, put_text, all_text, last_text, ids_text};
    ghost use Rattle.store_tables.specs.internal.Texts.{by_first_text};

    /// The CREATE TABLE statement.
    pub fn create(self) -> &'static str
        ensures { result.now ≡ create_of self }
    {
        match self {
            Table::Meta => CREATE_META,
            Table::Members => CREATE_MEMBERS,
            Table::Events => CREATE_EVENTS,
            Table::Challenges => CREATE_CHALLENGES,
            Table::Moves => CREATE_MOVES,
            Table::Games => CREATE_GAMES,
            Table::Seen => CREATE_SEEN,
            Table::Scores => CREATE_SCORES,
            Table::EventRules => CREATE_EVENT_RULES,
            Table::Keys => CREATE_KEYS,
            Table::Rulings => CREATE_RULINGS,
            Table::Closings => CREATE_CLOSINGS,
        }
    }

    /// The upsert statement: inserts a row, or replaces the row with the same key.
    pub fn put(self) -> &'static str
        ensures { result.now ≡ put_text (standing self) }
    {
        match self {
            Table::Meta => {
                "INSERT INTO meta (id, schema, last) VALUES (?1, ?2, ?3) ON CONFLICT (id) DO UPDATE SET id = excluded.id, schema = excluded.schema, last = excluded.last"
            }
            Table::Members => {
                "INSERT INTO members (id, name, key) VALUES (?1, ?2, ?3) ON CONFLICT (id) DO UPDATE SET id = excluded.id, name = excluded.name, key = excluded.key"
            }
            Table::Events => {
                "INSERT INTO events (id, name, game, budget, increment) VALUES (?1, ?2, ?3, ?4, ?5) ON CONFLICT (id) DO UPDATE SET id = excluded.id, name = excluded.name, game = excluded.game, budget = excluded.budget, increment = excluded.increment"
            }
            Table::Challenges => {
                "INSERT INTO challenges (member, number, event, other, first, state, game) VALUES (?1, ?2, ?3, ?4, ?5, ?6, ?7) ON CONFLICT (member, number) DO UPDATE SET member = excluded.member, number = excluded.number, event = excluded.event, other = excluded.other, first = excluded.first, state = excluded.state, game = excluded.game"
            }
            Table::Moves => {
                "INSERT INTO moves (game, ply, text, moment, left, position) VALUES (?1, ?2, ?3, ?4, ?5, ?6) ON CONFLICT (game, ply) DO UPDATE SET game = excluded.game, ply = excluded.ply, text = excluded.text, moment = excluded.moment, left = excluded.left, position = excluded.position"
            }
            Table::Games => {
                "INSERT INTO games (id, key, event, first, second, start, since, plies, left1, left2, offer_side, offer_ply, end, result, position, track_a, track_b) VALUES (?1, ?2, ?3, ?4, ?5, ?6, ?7, ?8, ?9, ?10, ?11, ?12, ?13, ?14, ?15, ?16, ?17) ON CONFLICT (id) DO UPDATE SET id = excluded.id, key = excluded.key, event = excluded.event, first = excluded.first, second = excluded.second, start = excluded.start, since = excluded.since, plies = excluded.plies, left1 = excluded.left1, left2 = excluded.left2, offer_side = excluded.offer_side, offer_ply = excluded.offer_ply, end = excluded.end, result = excluded.result, position = excluded.position, track_a = excluded.track_a, track_b = excluded.track_b"
            }
            Table::Seen => {
                "INSERT INTO seen (game, position, count, first_ply) VALUES (?1, ?2, ?3, ?4) ON CONFLICT (game, position) DO UPDATE SET game = excluded.game, position = excluded.position, count = excluded.count, first_ply = excluded.first_ply"
            }
            Table::Scores => {
                "INSERT INTO scores (event, member, opponent, points, wins, draws, losses) VALUES (?1, ?2, ?3, ?4, ?5, ?6, ?7) ON CONFLICT (event, member, opponent) DO UPDATE SET event = excluded.event, member = excluded.member, opponent = excluded.opponent, points = excluded.points, wins = excluded.wins, draws = excluded.draws, losses = excluded.losses"
            }
            Table::EventRules => {
                "INSERT INTO event_rules (event, declares) VALUES (?1, ?2) ON CONFLICT (event) DO UPDATE SET event = excluded.event, declares = excluded.declares"
            }
            Table::Keys => {
                "INSERT INTO keys (member, number, key) VALUES (?1, ?2, ?3) ON CONFLICT (member, number) DO UPDATE SET member = excluded.member, number = excluded.number, key = excluded.key"
            }
            Table::Rulings => {
                "INSERT INTO rulings (game, number, moment, ply, kind, seconds, result, beneath, beneath_result) VALUES (?1, ?2, ?3, ?4, ?5, ?6, ?7, ?8, ?9) ON CONFLICT (game, number) DO UPDATE SET game = excluded.game, number = excluded.number, moment = excluded.moment, ply = excluded.ply, kind = excluded.kind, seconds = excluded.seconds, result = excluded.result, beneath = excluded.beneath, beneath_result = excluded.beneath_result"
            }
            Table::Closings => {
                "INSERT INTO closings (event, moment) VALUES (?1, ?2) ON CONFLICT (event) DO UPDATE SET event = excluded.event, moment = excluded.moment"
            }
        }
    }

    /// The SELECT of all rows, in the order of the key.
    pub fn all(self) -> &'static str
        ensures { result.now ≡ all_text (standing self) }
    {
        match self {
            Table::Meta => "SELECT id, schema, last FROM meta ORDER BY id",
            Table::Members => "SELECT id, name, key FROM members ORDER BY id",
            Table::Events => "SELECT id, name, game, budget, increment FROM events ORDER BY id",
            Table::Challenges => {
                "SELECT member, number, event, other, first, state, game FROM challenges ORDER BY member, number"
            }
            Table::Moves => {
                "SELECT game, ply, text, moment, left, position FROM moves ORDER BY game, ply"
            }
            Table::Games => {
                "SELECT id, key, event, first, second, start, since, plies, left1, left2, offer_side, offer_ply, end, result, position, track_a, track_b FROM games ORDER BY id"
            }
            Table::Seen => {
                "SELECT game, position, count, first_ply FROM seen ORDER BY game, position"
            }
            Table::Scores => {
                "SELECT event, member, opponent, points, wins, draws, losses FROM scores ORDER BY event, member, opponent"
            }
            Table::EventRules => "SELECT event, declares FROM event_rules ORDER BY event",
            Table::Keys => "SELECT member, number, key FROM keys ORDER BY member, number",
            Table::Rulings => {
                "SELECT game, number, moment, ply, kind, seconds, result, beneath, beneath_result FROM rulings ORDER BY game, number"
            }
            Table::Closings => "SELECT event, moment FROM closings ORDER BY event",
        }
    }

    /// The SELECT of all rows, in the order of the first column, the greatest first.
    pub fn last(self) -> &'static str
        ensures { result.now ≡ last_text (standing self) }
    {
        match self {
            Table::Meta => "SELECT id, schema, last FROM meta ORDER BY id DESC",
            Table::Members => "SELECT id, name, key FROM members ORDER BY id DESC",
            Table::Events =>
                "SELECT id, name, game, budget, increment FROM events ORDER BY id DESC",
            Table::Challenges => {
                "SELECT member, number, event, other, first, state, game FROM challenges ORDER BY member DESC"
            }
            Table::Moves => {
                "SELECT game, ply, text, moment, left, position FROM moves ORDER BY game DESC"
            }
            Table::Games => {
                "SELECT id, key, event, first, second, start, since, plies, left1, left2, offer_side, offer_ply, end, result, position, track_a, track_b FROM games ORDER BY id DESC"
            }
            Table::Seen => {
                "SELECT game, position, count, first_ply FROM seen ORDER BY game DESC"
            }
            Table::Scores => {
                "SELECT event, member, opponent, points, wins, draws, losses FROM scores ORDER BY event DESC"
            }
            Table::EventRules => "SELECT event, declares FROM event_rules ORDER BY event DESC",
            Table::Keys => "SELECT member, number, key FROM keys ORDER BY member DESC",
            Table::Rulings => {
                "SELECT game, number, moment, ply, kind, seconds, result, beneath, beneath_result FROM rulings ORDER BY game DESC"
            }
            Table::Closings => "SELECT event, moment FROM closings ORDER BY event DESC",
        }
    }

    /// The SELECT of all rowids, in ascending order.
    pub fn ids(self) -> &'static str
        ensures { result.now ≡ ids_text (standing self) }
    {
        match self {
            Table::Meta => "SELECT id FROM meta ORDER BY id",
            Table::Members => "SELECT id FROM members ORDER BY id",
            Table::Events => "SELECT id FROM events ORDER BY id",
            Table::Challenges => "SELECT rowid FROM challenges ORDER BY rowid",
            Table::Moves => "SELECT rowid FROM moves ORDER BY rowid",
            Table::Games => "SELECT id FROM games ORDER BY id",
            Table::Seen => "SELECT rowid FROM seen ORDER BY rowid",
            Table::Scores => "SELECT rowid FROM scores ORDER BY rowid",
            Table::EventRules => "SELECT event FROM event_rules ORDER BY event",
            Table::Keys => "SELECT rowid FROM keys ORDER BY rowid",
            Table::Rulings => "SELECT rowid FROM rulings ORDER BY rowid",
            Table::Closings => "SELECT event FROM closings ORDER BY event",
        }
    }

    /// The SELECT of the rows whose first column is `?1`, in the order of the other columns of the key.
    pub fn by_first(self) -> &'static str
        ensures { result.now ≡ by_first_text (standing self) }
    {
        match self {
            Table::Meta => "SELECT id, schema, last FROM meta WHERE id = ?1",
            Table::Members => "SELECT id, name, key FROM members WHERE id = ?1",
            Table::Events => {
                "SELECT id, name, game, budget, increment FROM events WHERE id = ?1"
            }
            Table::Challenges => {
                "SELECT member, number, event, other, first, state, game FROM challenges WHERE member = ?1 ORDER BY number"
            }
            Table::Moves => {
                "SELECT game, ply, text, moment, left, position FROM moves WHERE game = ?1 ORDER BY ply"
            }
            Table::Games => {
                "SELECT id, key, event, first, second, start, since, plies, left1, left2, offer_side, offer_ply, end, result, position, track_a, track_b FROM games WHERE id = ?1"
            }
            Table::Seen => {
                "SELECT game, position, count, first_ply FROM seen WHERE game = ?1 ORDER BY position"
            }
            Table::Scores => {
                "SELECT event, member, opponent, points, wins, draws, losses FROM scores WHERE event = ?1 ORDER BY member, opponent"
            }
            Table::EventRules => "SELECT event, declares FROM event_rules WHERE event = ?1",
            Table::Keys => {
                "SELECT member, number, key FROM keys WHERE member = ?1 ORDER BY number"
            }
            Table::Rulings => {
                "SELECT game, number, moment, ply, kind, seconds, result, beneath, beneath_result FROM rulings WHERE game = ?1 ORDER BY number"
            }
            Table::Closings => "SELECT event, moment FROM closings WHERE event = ?1",
        }
    }
}
