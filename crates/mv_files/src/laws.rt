//! What a reader may want to know of the definitions. Each law is a contract; its body does nothing.

ghost use Rattle.std.specs.Prelude.{◌≡◌};
ghost use Rattle.mv_files.specs.StoredFile.{most_name_bytes};
ghost use Rattle.mv_files.specs.declared.stored_file.TheConstants.{MOST_NAME_BYTES};

/// The limit of the code is that of the definitions: names of created files have at most 256 bytes.
pub fn limits()
    ensures { MOST_NAME_BYTES ≡ most_name_bytes }
{}
