// The numbers of Hadoop's `FSEditLogOpCodes`.
pub(crate) const ADD: u8 = 0;

pub(crate) const RENAME_OLD: u8 = 1;

pub(crate) const DELETE: u8 = 2;

pub(crate) const MKDIR: u8 = 3;

pub(crate) const SET_REPLICATION: u8 = 4;

pub(crate) const SET_PERMISSIONS: u8 = 7;

pub(crate) const SET_OWNER: u8 = 8;

pub(crate) const CLOSE: u8 = 9;

pub(crate) const SET_QUOTA: u8 = 14;

pub(crate) const END_LOG_SEGMENT: u8 = 23;

pub(crate) const START_LOG_SEGMENT: u8 = 24;

pub(crate) const ADD_BLOCK: u8 = 33;
