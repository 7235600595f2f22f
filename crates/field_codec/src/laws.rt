//! The laws of the formats: each is exact, so that no bytes spell two values.
ghost use Rattle.byte_format.specs.Format.{IsExact};
ghost use Rattle.field_codec.specs.Branch.{branch_format};
ghost use Rattle.field_codec.specs.Name.{name_format};
ghost use Rattle.field_codec.specs.Text.{text_format, utf8_format, comment_format};
ghost use Rattle.field_codec.specs.Value.{value_format, row_format};
ghost use Rattle.field_codec.specs.Change.{change_format};
ghost use Rattle.field_codec.specs.Table.{table_format, link_format, synonym_format};
ghost use Rattle.field_codec.specs.Advice.{advice_format};

/// The fields of records and messages have exact formats.
pub fn fields_are_exact()
    ensures branches { IsExact branch_format }
    ensures names { IsExact name_format }
    ensures texts { IsExact text_format }
    ensures utf8 { IsExact utf8_format }
    ensures comments { IsExact comment_format }
    ensures values { IsExact value_format }
    ensures rows { IsExact row_format }
    ensures changes { IsExact change_format }
    ensures tables { IsExact table_format }
    ensures links { IsExact link_format }
    ensures synonyms { IsExact synonym_format }
    ensures advice { IsExact advice_format }
{}
