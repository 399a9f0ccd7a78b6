//! Receipts, as the rows of their table.

ghost use Rattle.std.specs.Prelude.{refl};
ghost use Rattle.register.specs.Offices.{receipt_entry};
ghost use Rattle.tables.specs.declared.table.Table.TheVariants.{Receipt as ReceiptTable};
ghost use Rattle.store.specs.EntryRows.{IsReceiptRow, row_of_receipt};

use register::Receipt;
use sqlite::Row;
use sqlite_value::value::ValueRef;
use std::alloc::Global;
use tables::value_conversion::{number, number_at, text, text_at};
use tables::{Entries, Fault, Table};

/// The receipts, ordered by actor and id.
pub(crate) struct Receipts;

impl Entries for Receipts {
    type Entry = Receipt;

    ghost row_of = { λ r. row_of_receipt (receipt_entry r) };

    ghost is_row = { IsReceiptRow };

    ghost TABLE = { ReceiptTable };

    const TABLE: Table = Table::Receipt;

    fn values<'a>(receipt: &'a Receipt, alloc: Global) -> Result<Vec<ValueRef<'a>>, Fault> {
        let values = [
            number(receipt.actor),
            text(receipt.id.as_str()),
            text(receipt.subject.as_str()),
            text(receipt.reply.as_str()),
        ];
        Vec::from_array(alloc, values).map_err(|_| Fault::Memory)
    }

    fn read(row: &Row) -> Result<Receipt, Fault> {
        Ok(Receipt {
            actor: number_at(row, 0)?,
            id: text_at(row, 1)?,
            subject: text_at(row, 2)?,
            reply: text_at(row, 3)?,
        })
    }

    ghost typed = { λ r. refl };
}
