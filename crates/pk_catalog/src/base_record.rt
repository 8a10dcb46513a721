//! The record of a base: how many commits there have been.

ghost use Rattle.std.specs.Prelude.{◌^◌, ◌≤◌, IfOk};
ghost use Rattle.pk_catalog.specs.Records.{IsBaseRecord, GetsIf};

use crate::reading::VERSION;
use pk_values::{Bytes, Memory};
use std::alloc::Global;

/// How many commits a base may have had, and how many ids a table may have given: 2^62.
pub const MOST_NUMBER: u64 = 1 << 62;

/// The record of a base with so many commits, at most 2^62: 9 bytes.
pub fn put_base(alloc: Global, commits: u64) -> Result<Bytes, Memory>
    requires { commits ≤ 2 ^ 62 }
    ensures { IfOk result (λ bytes. IsBaseRecord bytes commits) }
{
    let mut out = Vec::with_capacity(alloc, 9)?;
    out.push(VERSION)?;
    out.extend_from_slice(&commits.to_be_bytes())?;
    Ok(Bytes::from_vec(out))
}

/// How many commits a base has had, by its record. `None` comes exactly where the bytes are no such record.
pub fn get_base(bytes: &[u8]) -> Option<u64>
    ensures { GetsIf (IsBaseRecord bytes.now) result }
{
    if bytes.len() != 9 || bytes[0] != VERSION {
        return None;
    }
    let commits = u64::from_be_bytes([
        bytes[1], bytes[2], bytes[3], bytes[4], bytes[5], bytes[6], bytes[7], bytes[8],
    ]);
    if commits <= MOST_NUMBER {
        Some(commits)
    } else {
        None
    }
}
