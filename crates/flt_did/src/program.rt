//! The table that every program of the repository uses (this profile).

/// Makes the table with the data identifiers 0101 to 0107, each with its width in bytes and its function (this profile): those of
/// `program_dids`, in `specs/Program`. It is no function, since one that handed stored functions out would hide from its callers what they
/// are.
#[macro_export]
macro_rules! program_table {
    () => {{
        let mut table: $crate::DidTable<{ $crate::DID_ROWS }> = $crate::DidTable::new();
        table.insert($crate::Row { id: 0x0101, width: 2, read: $crate::did_0101 });
        table.insert($crate::Row { id: 0x0102, width: 2, read: $crate::did_0102 });
        table.insert($crate::Row { id: 0x0103, width: 1, read: $crate::did_0103 });
        table.insert($crate::Row { id: 0x0104, width: 4, read: $crate::did_0104 });
        table.insert($crate::Row { id: 0x0105, width: 1, read: $crate::did_0105 });
        table.insert($crate::Row { id: 0x0106, width: 2, read: $crate::did_0106 });
        table.insert($crate::Row { id: 0x0107, width: 8, read: $crate::did_0107 });
        table
    }};
}
