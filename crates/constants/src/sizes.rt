// The sizes of documents 01 and 02.

// Columns of the display memory, bytes of a page, and places of each row of the frame.
pub const WIDTH: usize = 132;
// The last column, after which comes 0.
pub const LAST_COLUMN: u8 = 131;
// Pages of the display memory.
pub const PAGES: u8 = 9;
// The page that holds the icons.
pub const ICON_PAGE: u8 = 8;
// Bytes of the state image.
pub const IMAGE_SIZE: usize = 23;
// Bytes of the display memory.
pub const MEMORY_SIZE: usize = 1188;
// Panel rows; the RAM row after the last of them has the icons.
pub const HEIGHT: u8 = 64;
// Rows of the frame: the panel rows, then the icon line.
pub const FRAME_ROWS: usize = 65;
// Bytes of the frame.
pub const FRAME_SIZE: usize = 8580;
// Places of each row of the wide frame: the left chip's, then the right chip's.
pub const WIDE_WIDTH: usize = 264;
// Bytes of the wide frame.
pub const WIDE_FRAME_SIZE: usize = 17160;
// Bytes of a record's header in a trace.
pub const HEADER_SIZE: usize = 4;
// Bytes of the longest trace that the listing program takes.
pub const LONGEST_TRACE: usize = 65536;
// Bytes of the longest listing: a buffer of that length is enough for any.
pub const LONGEST_LISTING: usize = 27408;
// Bytes of the longest listing of a wide frame.
pub const LONGEST_WIDE_LISTING: usize = 61728;
// Bytes of an entry in the list of differing runs of two frames.
pub const FRAME_ENTRY_SIZE: usize = 5;
// Bytes of an entry in the list of differing bytes of two memories.
pub const MEMORY_ENTRY_SIZE: usize = 4;
// Bytes of the longest list of differing runs: a buffer of that length is enough for any.
pub const LONGEST_FRAME_LIST: usize = 42900;
// Bytes of the longest list of differing bytes.
pub const LONGEST_MEMORY_LIST: usize = 4752;
