//! What the tables that a text gives can be relied on for.
#![tactic(auto)]

ghost use Rattle.std.specs.Prelude.{◌≡◌, ℕ, List};
ghost use Rattle.reader.specs.Composed.{Composed, nothing};
ghost use Rattle.reader.specs.Reading.{read, tables};
ghost use Rattle.sound_tables.specs.Extends.{Extends, Complete};
ghost use Rattle.sound_tables.specs.Sound.{Sound};

// Before any module the tables are sound, and a text that is read after others leaves them so.
pub fn tables_that_are_read_are_sound() -> bool
    ensures at_first { Sound nothing }
    ensures after_each { (c : Composed) (text : List ℕ) (after : Composed) → Sound c → read c text ≡ tables after → Sound after }
{
    true
}

// A text that is read after others adds to the tables and takes nothing away. So a default domain and an -r rule on /, once
// they are there, stay.
pub fn modules_only_add() -> bool
    ensures extends { (c : Composed) (text : List ℕ) (after : Composed) → read c text ≡ tables after → Extends c after }
    ensures complete { (c : Composed) (text : List ℕ) (after : Composed) → read c text ≡ tables after → Complete c.tables → Complete after.tables }
{
    true
}
