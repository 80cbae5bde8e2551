//! The limits that more than one crate tests, as numbers of the code. `specs/Limits.antt` says the same to contracts.

/// The layout that this program writes and reads. It is far from those of Hadoop, so that neither takes the other's files.
pub const LAYOUT: i32 = -1001;

/// How many name directories there may be.
pub const MOST_DIRS: usize = 8;

/// The longest name of a node, in bytes (HDFS's `dfs.namenode.fs-limits.max-component-length`).
pub const MOST_NAME: usize = 255;

/// The longest word of a VERSION, in bytes: the id of a cluster or of a block pool.
pub const MOST_WORD: usize = 255;

/// How many levels a path may have below the root (HDFS's `MAX_PATH_DEPTH`).
pub const MOST_LEVELS: usize = 1_000;

/// The longest text of a path, in bytes (HDFS's `MAX_PATH_LENGTH`).
pub const MOST_PATH: usize = 8_000;

/// The longest name of an owner or a group, in bytes.
pub const MOST_LABEL: usize = 32;

/// The greatest permission bits: nine of them and the sticky bit (HDFS's `FsPermission`).
pub const MOST_MODE: u16 = 0o1777;

/// How many nodes a namespace may have, the root included.
pub const MOST_NODES: u64 = 1_048_576;

/// How many blocks all files together may have.
pub const MOST_BLOCKS: u64 = 8_388_608;

/// How many blocks one file may have (HDFS's `dfs.namenode.fs-limits.max-blocks-per-file`).
pub const MOST_BLOCKS_OF_FILE: usize = 10_000;

/// The longest block, in bytes.
pub const MOST_BLOCK_LENGTH: u64 = 1 << 40;

/// The highest replication of a file (HDFS's `dfs.replication.max`).
pub const MOST_REPLICATION: u16 = 512;

/// The longest record of the edit log, in bytes.
pub const MOST_RECORD: usize = 65_536;

/// The longest segment of the edit log that is written, in bytes.
pub const MOST_SEGMENT: usize = 1 << 26;

/// The longest segment of the edit log that is read, in bytes: a start takes longer ones than it writes.
pub const MOST_SEGMENT_READ: usize = 1 << 30;

/// The longest VERSION that is read, in bytes.
pub const MOST_VERSION: usize = 65_536;

/// The longest image, in bytes.
pub const MOST_IMAGE: usize = 1 << 30;

/// The longest script, in bytes.
pub const MOST_SCRIPT: usize = 1 << 26;

/// The longest line of a script, in bytes, without the newline that ends it.
pub const MOST_LINE: usize = 65_535;

/// The most bytes that go out in one piece: a part of an image, or an answer.
pub const MOST_PIECE: usize = 65_536;
