//! The bytes of tables, links and synonyms, and of the rows of the tables.
ghost use Rattle.std.specs.Prelude.{◌≡◌, ◌++◌, OnOk};
ghost use Rattle.std.specs.Io.{StartsWith};
ghost use Rattle.byte_format.specs.Several.{times_at};
ghost use Rattle.byte_format.specs.Reads.{ReadsInMemory};
ghost use Rattle.image_codec.specs.Image.{catalog_format};

use crate::order::are_rows_of;
use byte_format::{Field, TakeErr, put_each};
use dtx_values::{Link, Listing, Rows, Synonym, Table};
use field_codec::{LinkField, ListField, RowField, SynonymField, TableField};
use redo_record::Image;
use std::alloc::{AllocError, Global};

/// Tables, links and synonyms, and the rows of each table.
#[derive(Drop)]
pub(crate) struct Catalog {
    pub(crate) tables: Listing<Table>,
    pub(crate) links: Listing<Link>,
    pub(crate) synonyms: Listing<Synonym>,
    pub(crate) rows: Listing<Rows>,
}

/// Writes tables, links and synonyms, and then the rows of each table. Fails where memory runs out.
pub(crate) fn put_catalog(out: &mut Vec<u8>, image: &Image) -> Result<(), AllocError>
    requires { catalog_format.Fits ((image.now.tables, (image.now.links, image.now.synonyms)), image.now.rows) }
    ensures written { OnOk result (out.new.items ≡ out.old.items ++ catalog_format.text ((image.now.tables, (image.now.links, image.now.synonyms)), image.now.rows)) }
    ensures kept { StartsWith out.new.items out.old.items }
{
    ListField::<TableField>::put_into(out, &image.tables)?;
    ListField::<LinkField>::put_into(out, &image.links)?;
    ListField::<SynonymField>::put_into(out, &image.synonyms)?;
    put_each::<ListField<RowField>>(out, image.rows.as_slice())
}

/// So many items, one after the other, and the bytes after them. Fails with `NoSpelling` exactly
/// where they are not there, and with `NoMemory` where memory runs out.
fn take_times<F: Field>(
    alloc: Global,
    count: usize,
    bytes: &[u8],
) -> Result<(Vec<F::Value>, &[u8]), TakeErr>
    ensures { ReadsInMemory (λ x. (x.0.items, x.1.now)) result (times_at count F.format.read bytes.now) }
{
    let mut items = Vec::new(alloc);
    let mut rest = bytes;
    for _ in 0..count {
        let (item, after) = F::take_from(alloc, rest)?;
        items.push(item)?;
        rest = after;
    }
    Ok((items, rest))
}

/// Tables, links and synonyms, then the rows of each table, and the bytes after them. Fails with `NoSpelling` exactly where
/// they are not there, and with `NoMemory` where memory runs out.
pub(crate) fn take_catalog(alloc: Global, bytes: &[u8]) -> Result<(Catalog, &[u8]), TakeErr>
    ensures { ReadsInMemory (λ x. (((x.0.tables, (x.0.links, x.0.synonyms)), x.0.rows), x.1.now)) result (catalog_format.read bytes.now) }
{
    let (tables, rest) = ListField::<TableField>::take_from(alloc, bytes)?;
    let (links, rest) = ListField::<LinkField>::take_from(alloc, rest)?;
    let (synonyms, rest) = ListField::<SynonymField>::take_from(alloc, rest)?;
    let (rows, rest) = take_times::<ListField<RowField>>(alloc, tables.as_slice().len(), rest)?;
    if !are_rows_of(tables.as_slice(), &rows) {
        return Err(TakeErr::NoSpelling);
    }
    let catalog = Catalog {
        tables,
        links,
        synonyms,
        rows: Listing::of(rows),
    };
    Ok((catalog, rest))
}
