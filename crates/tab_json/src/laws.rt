//! What follows from the definitions of texts and bodies alone.
ghost use Rattle.std.specs.Prelude.{ℕ, List, IsUtf8};
ghost use Rattle.serde_json.specs.Data.{Data};
ghost use Rattle.serde_json.specs.Written.{compact_text};
ghost use Rattle.tab_rows.specs.Rows.{RowView, IsKept};
ghost use Rattle.tab_json.specs.Entities.{VersionView, version_of};
ghost use Rattle.tab_json.specs.Lines.{IsOneLine};
ghost use Rattle.tab_json.specs.RoundTrips.{IsVersion, IsReadBack};

/// The text of an entity, with minimal metadata and all of its properties, is read as its keys and these properties.
pub fn entities_are_read_back()
    ensures versions { (account name : List ℕ) (version : VersionView) → IsUtf8 account → IsUtf8 name → IsVersion version
        → IsReadBack account name version }
    ensures rows { (account name : List ℕ) (row : RowView) → IsUtf8 account → IsUtf8 name → IsKept row
        → IsReadBack account name (version_of row) }
{}

/// Each JSON text is one line.
pub fn json_texts_are_one_line()
    ensures { (value : Data) → IsOneLine (compact_text value) }
{}
