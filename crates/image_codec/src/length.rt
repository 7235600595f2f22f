//! The length of the body of an image, which no bytes are made for.
ghost use Rattle.std.specs.Prelude.{◌≡◌, ◌+◌, length, flat_map};
ghost use Rattle.image_codec.specs.Kept.{end_format};
ghost use Rattle.image_codec.specs.Image.{start_format, catalog_format, body_format};
ghost use Rattle.image_codec.specs.Length.{capped};

use crate::kept::ItemField;
use crate::neighbor::{DecisionField, PeerField};
use byte_format::Field;
use dtx_values::{Change, Column, Link, Listing, Name, Row, Synonym, Table, Value};
use field_codec::{
    BranchField, ChangeField, ColumnField, LinkField, ListField, NameField, RowField, SynonymField,
    TableField, ValueField,
};
use redo_record::{Decision, Image, KeptItem, Peer};
use tran_ids::BranchId;

/// Fields whose values have spellings of a known length.
pub(crate) trait Measured: Field {
    /// How long the spelling of a value is, or the greatest number where it is longer.
    fn length_of(value: &Self::Value) -> u64
        ensures { result ≡ capped (length (Self.format.text value.now)) };
}

/// How long the spellings of all these are together.
fn each_length<F: Measured>(items: &[F::Value]) -> u64
    ensures { result ≡ capped (length (flat_map F.format.text items.now)) }
{
    let mut total: u64 = 0;
    for item in items {
        total = total.saturating_add(F::length_of(item));
    }
    total
}

impl<F: Measured> Measured for ListField<F> {
    fn length_of(items: &Listing<F::Value>) -> u64 {
        each_length::<F>(items.as_slice()).saturating_add(4)
    }
}

impl Measured for NameField {
    fn length_of(name: &Name) -> u64 {
        name.as_bytes().len() as u64 + 1
    }
}

impl Measured for ValueField {
    fn length_of(value: &Value) -> u64 {
        match value {
            Value::Null => 1,
            Value::Number(_) => 9,
            Value::Text(text) => text.as_bytes().len() as u64 + 3,
        }
    }
}

impl Measured for RowField {
    fn length_of(row: &Row) -> u64 {
        each_length::<ValueField>(row.cells.as_slice()).saturating_add(1)
    }
}

impl Measured for BranchField {
    fn length_of(_branch: &BranchId) -> u64 {
        13
    }
}

impl<F: Measured> Measured for Option<F> {
    fn length_of(value: &Option<F::Value>) -> u64 {
        match value {
            None => 1,
            Some(value) => F::length_of(value).saturating_add(1),
        }
    }
}

impl Measured for ChangeField {
    fn length_of(change: &Change) -> u64 {
        NameField::length_of(&change.table)
            .saturating_add(ValueField::length_of(&change.key))
            .saturating_add(Option::<RowField>::length_of(&change.after))
    }
}

impl Measured for ColumnField {
    fn length_of(column: &Column) -> u64 {
        NameField::length_of(&column.name).saturating_add(5)
    }
}

impl Measured for TableField {
    fn length_of(table: &Table) -> u64 {
        each_length::<ColumnField>(table.columns.as_slice())
            .saturating_add(NameField::length_of(&table.name))
            .saturating_add(1)
    }
}

impl Measured for LinkField {
    fn length_of(link: &Link) -> u64 {
        NameField::length_of(&link.name).saturating_add(NameField::length_of(&link.target))
    }
}

impl Measured for SynonymField {
    fn length_of(synonym: &Synonym) -> u64 {
        NameField::length_of(&synonym.name)
            .saturating_add(NameField::length_of(&synonym.table))
            .saturating_add(NameField::length_of(&synonym.link))
    }
}

impl Measured for PeerField {
    fn length_of(peer: &Peer) -> u64 {
        NameField::length_of(&peer.link).saturating_add(13)
    }
}

impl Measured for DecisionField {
    fn length_of(_decision: &Decision) -> u64 {
        7
    }
}

/// How long the note, what is known of the outcome, and what is held back are together.
fn end_length(item: &KeptItem) -> u64
    ensures { result ≡ capped (length (end_format.text ((item.now.advice, item.now.comment), ((item.now.decision, (item.now.number, (item.now.mixed, (item.now.forgot, item.now.hidden)))), item.now.changes)))) }
{
    let known = Option::<DecisionField>::length_of(&item.decision).saturating_add(12);
    let texts = known.saturating_add(item.comment.as_slice().len() as u64);
    ListField::<ChangeField>::length_of(&item.changes).saturating_add(texts)
}

impl Measured for ItemField {
    fn length_of(item: &KeptItem) -> u64 {
        let parent = Option::<BranchField>::length_of(&item.parent).saturating_add(34);
        let tree = ListField::<PeerField>::length_of(&item.children).saturating_add(parent);
        end_length(item).saturating_add(tree)
    }
}

/// How long tables, links and synonyms and the rows of each table are together.
fn catalog_length(image: &Image) -> u64
    ensures { result ≡ capped (length (catalog_format.text ((image.now.tables, (image.now.links, image.now.synonyms)), image.now.rows))) }
{
    let tables = ListField::<TableField>::length_of(&image.tables);
    let links = ListField::<LinkField>::length_of(&image.links);
    let synonyms = ListField::<SynonymField>::length_of(&image.synonyms);
    let rows = each_length::<ListField<RowField>>(image.rows.as_slice());
    tables
        .saturating_add(links)
        .saturating_add(synonyms)
        .saturating_add(rows)
}

/// How long what stands in front of the tables is.
fn start_length(image: &Image) -> u64
    ensures { result ≡ length (start_format.text (image.now.generation, (image.now.clock, (image.now.top, (image.now.boot, (image.now.recovery, image.now.strength)))))) }
{
    if image.strength.is_some() { 27 } else { 26 }
}

/// How long the body of the record of an image is, or the greatest number where it is longer. No body is made.
pub fn image_length(image: &Image) -> u64
    ensures { result ≡ capped (length (body_format.text image.now)) }
{
    let start = start_length(image) + 2;
    let kept = ListField::<ItemField>::length_of(&image.kept);
    catalog_length(image)
        .saturating_add(kept)
        .saturating_add(start)
}
