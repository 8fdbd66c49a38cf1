// What the tests say of rows.
use keeper::{Bytes, KeptRow};
use std::alloc::{AllocError, Global};

/// A row with these bytes under this key.
pub fn row(alloc: Global, key: &[u8], bytes: &[u8]) -> Result<KeptRow, AllocError> {
    Ok(KeptRow {
        key: Bytes::from(Vec::from_slice(alloc, key)?),
        bytes: Bytes::from(Vec::from_slice(alloc, bytes)?),
    })
}

/// Whether these are the keys and the bytes of the rows, in this order.
pub fn are(rows: &[KeptRow], wanted: &[(&[u8], &[u8])]) -> bool {
    if rows.len() != wanted.len() {
        return false;
    }
    for (row, (key, bytes)) in rows.iter().zip(wanted) {
        if row.key.as_slice() != *key || row.bytes.as_slice() != *bytes {
            return false;
        }
    }
    true
}
