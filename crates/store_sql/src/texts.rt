//! Maps each row type to its table, whose SELECT statements return its rows.

ghost use Rattle.std.specs.Prelude.{◌≡◌, ℕ, Bool, true, false, IsTrue, refl};
ghost use Rattle.std.proofs.Common.{true≢false, sym};
ghost use Rattle.sqlite.specs.Order.{Row, column};
ghost use Rattle.sqlite.specs.Schema.{Schema};
ghost use Rattle.sqlite.specs.Table.{Table};
ghost use Rattle.sqlite_trees.specs.Tree.{rowid};
ghost use Rattle.store_tables.specs.Content.{cells as shown};
ghost use Rattle.store_tables.specs.internal.Queries.{AreShownBy};
ghost use Rattle.store_tables.specs.Placed.{HasTableAt};
ghost use Rattle.store_tables.specs.Tables.{made_as, standing};
ghost use Rattle.store_tables.specs.internal.Tables.{has_table};
ghost use Rattle.store_tables.specs.declared.names.Table as of_club;
ghost use Rattle.store_tables.specs.declared.names.Table.TheVariants as variant;
ghost use Rattle.store_tables.specs.declared.names.Version.{Version};
ghost use Rattle.store_tables.specs.declared.names.Version.TheVariants.{V2, V3};
ghost use Rattle.store_tables.proofs.Proved.{placed_shown};

use store_tables::{
    ChallengeRow, ClosingRow, EventRow, EventRuleRow, GameTableRow, KeyRow, MemberRow, MetaRow,
    MoveRow, RulingRow, ScoreRow, SeenRow, Table, TableRow,
};

/// A row type whose table has SELECT statements for its rows.
pub trait Select: TableRow {
    // the table; its definition in a database that holds only a club; the number of columns in its key; whether its key
    // is the rowid, as in most tables
    ghost which: { of_club.Table };

    ghost table: { Table };

    ghost width: { ℕ } = { 1 };

    ghost has_id: { Bool } = { true };

    // the schema version of which the table is read; later versions have it too
    ghost since: { Version } = { V2 };

    /// The table that holds these rows.
    fn table() -> Table
        ensures { standing result ≡ table };

    ghost is_table: { table ≡ standing which };

    ghost is_there: { IsTrue (has_table since which) };

    // its statements return its rows, whatever other tables exist
    ghost read: { (schema : Schema) (stands : HasTableAt schema which) → AreShownBy schema (made_as which stands.tree)
        width };

    ghost numbered: { IsTrue has_id → (width ≡ 1) × ((r : Row) → column (shown table r) 0 ≡ rowid r) };
}

impl Select for MetaRow {
    ghost which = { variant.Meta };

    ghost table = { standing variant.Meta };

    ghost is_table = { refl };

    ghost is_there = { refl };

    ghost read = { λ schema stands. placed_shown schema variant.Meta stands };

    ghost numbered = { λ it. (refl, λ r. refl) };

    fn table() -> Table {
        Table::Meta
    }
}

impl Select for MemberRow {
    ghost which = { variant.Members };

    ghost table = { standing variant.Members };

    ghost is_table = { refl };

    ghost is_there = { refl };

    ghost read = { λ schema stands. placed_shown schema variant.Members stands };

    ghost numbered = { λ it. (refl, λ r. refl) };

    fn table() -> Table {
        Table::Members
    }
}

impl Select for EventRow {
    ghost which = { variant.Events };

    ghost table = { standing variant.Events };

    ghost is_table = { refl };

    ghost is_there = { refl };

    ghost read = { λ schema stands. placed_shown schema variant.Events stands };

    ghost numbered = { λ it. (refl, λ r. refl) };

    fn table() -> Table {
        Table::Events
    }
}

impl Select for EventRuleRow {
    ghost which = { variant.EventRules };

    ghost table = { standing variant.EventRules };

    ghost is_table = { refl };

    ghost is_there = { refl };

    ghost read = { λ schema stands. placed_shown schema variant.EventRules stands };

    ghost numbered = { λ it. (refl, λ r. refl) };

    fn table() -> Table {
        Table::EventRules
    }
}

impl Select for ChallengeRow {
    ghost which = { variant.Challenges };

    ghost table = { standing variant.Challenges };

    ghost width = { 2 };

    ghost has_id = { false };

    ghost is_table = { refl };

    ghost is_there = { refl };

    ghost read = { λ schema stands. placed_shown schema variant.Challenges stands };

    ghost numbered = { λ it. absurd (true≢false (sym it)) };

    fn table() -> Table {
        Table::Challenges
    }
}

impl Select for MoveRow {
    ghost which = { variant.Moves };

    ghost table = { standing variant.Moves };

    ghost width = { 2 };

    ghost has_id = { false };

    ghost is_table = { refl };

    ghost is_there = { refl };

    ghost read = { λ schema stands. placed_shown schema variant.Moves stands };

    ghost numbered = { λ it. absurd (true≢false (sym it)) };

    fn table() -> Table {
        Table::Moves
    }
}

impl Select for GameTableRow {
    ghost which = { variant.Games };

    ghost table = { standing variant.Games };

    ghost is_table = { refl };

    ghost is_there = { refl };

    ghost read = { λ schema stands. placed_shown schema variant.Games stands };

    ghost numbered = { λ it. (refl, λ r. refl) };

    fn table() -> Table {
        Table::Games
    }
}

impl Select for SeenRow {
    ghost which = { variant.Seen };

    ghost table = { standing variant.Seen };

    ghost width = { 2 };

    ghost has_id = { false };

    ghost is_table = { refl };

    ghost is_there = { refl };

    ghost read = { λ schema stands. placed_shown schema variant.Seen stands };

    ghost numbered = { λ it. absurd (true≢false (sym it)) };

    fn table() -> Table {
        Table::Seen
    }
}

impl Select for ScoreRow {
    ghost which = { variant.Scores };

    ghost table = { standing variant.Scores };

    ghost width = { 3 };

    ghost has_id = { false };

    ghost is_table = { refl };

    ghost is_there = { refl };

    ghost read = { λ schema stands. placed_shown schema variant.Scores stands };

    ghost numbered = { λ it. absurd (true≢false (sym it)) };

    fn table() -> Table {
        Table::Scores
    }
}

impl Select for KeyRow {
    ghost which = { variant.Keys };

    ghost table = { standing variant.Keys };

    ghost width = { 2 };

    ghost has_id = { false };

    ghost since = { V3 };

    ghost is_table = { refl };

    ghost is_there = { refl };

    ghost read = { λ schema stands. placed_shown schema variant.Keys stands };

    ghost numbered = { λ it. absurd (true≢false (sym it)) };

    fn table() -> Table {
        Table::Keys
    }
}

impl Select for RulingRow {
    ghost which = { variant.Rulings };

    ghost table = { standing variant.Rulings };

    ghost width = { 2 };

    ghost has_id = { false };

    ghost since = { V3 };

    ghost is_table = { refl };

    ghost is_there = { refl };

    ghost read = { λ schema stands. placed_shown schema variant.Rulings stands };

    ghost numbered = { λ it. absurd (true≢false (sym it)) };

    fn table() -> Table {
        Table::Rulings
    }
}

impl Select for ClosingRow {
    ghost which = { variant.Closings };

    ghost table = { standing variant.Closings };

    ghost since = { V3 };

    ghost is_table = { refl };

    ghost is_there = { refl };

    ghost read = { λ schema stands. placed_shown schema variant.Closings stands };

    ghost numbered = { λ it. (refl, λ r. refl) };

    fn table() -> Table {
        Table::Closings
    }
}
