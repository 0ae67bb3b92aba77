//! The lines that are always the same.
ghost use Rattle.std.specs.Prelude.{◌≡◌};
ghost use Rattle.vol_shell.specs.Lines.{door_line, feed_line, folder_line, memory_line, output_line, store_line, usage_line};

/// The words are no command line.
pub const USAGE_LINE: &[u8] = b"usage\n";

/// An object stands under the folder that is to be written.
pub const FOLDER_LINE: &[u8] = b"folder not empty\n";

/// The store failed.
pub const STORE_LINE: &[u8] = b"store fault\n";

/// The standard input failed.
pub const FEED_LINE: &[u8] = b"feed fault\n";

/// The standard output failed.
pub const OUTPUT_LINE: &[u8] = b"output fault\n";

/// Memory ran out.
pub const MEMORY_LINE: &[u8] = b"out of memory\n";

/// The door failed.
pub const DOOR_LINE: &[u8] = b"door fault\n";

/// The lines that are always the same are as they are defined.
pub fn tell_lines()
    ensures usage { USAGE_LINE.now ≡ usage_line }
    ensures folder { FOLDER_LINE.now ≡ folder_line }
    ensures store { STORE_LINE.now ≡ store_line }
    ensures feed { FEED_LINE.now ≡ feed_line }
    ensures output { OUTPUT_LINE.now ≡ output_line }
    ensures memory { MEMORY_LINE.now ≡ memory_line }
    ensures door { DOOR_LINE.now ≡ door_line }
{}
