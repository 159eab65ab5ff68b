//! The laws of the text that is written: it is JSON, it denotes the value, and it is one line.

ghost use Rattle.std.specs.Prelude.{◌≡◌, ◌≤◌, ◌<◌, ◌^◌, ℕ, pos, true, All, List, [], ◌∷◌, codes, decimal};
ghost use Rattle.ga_text.specs.Lines.{Text};
ghost use Rattle.ga_json.specs.Values.{JsonValue, JsonItems, array, item, no_items, number, string, boolean};
ghost use Rattle.ga_json.specs.Grammar.{IsJsonText, IsJsonString, IsJsonInt};
ghost use Rattle.ga_json.specs.Compact.{IsWritableValue, AreWritableItems, compact_json_text, json_line};
ghost use Rattle.ga_json.specs.FieldValues.{field_value_json};
ghost use Rattle.ga_json.specs.Fields.{row_json, report_json};
ghost use Rattle.ga_json.specs.declared.field.Field.{Field};

/// The line that is written of a value is a JSON text that denotes this value, if its texts are UTF-8.
#[tactic(auto, using(crate::proofs::Written::line_is_json))]
pub fn lines_are_json()
    ensures { (value : JsonValue) → IsWritableValue value → IsJsonText (json_line value) value }
{}

/// The text of a value has no control character, so the line ends at its only line feed.
#[tactic(auto, using(crate::proofs::Written::no_control))]
pub fn json_text_is_one_line()
    ensures { (value : JsonValue) → IsWritableValue value → All (λ b. 32 ≤ b) (compact_json_text value) }
{}

/// Rows and answers can be written if the values of their fields can.
pub fn reports_are_writable()
    ensures rows { (fields : List Field) → All (λ field. IsWritableValue (field_value_json field.value)) fields → IsWritableValue (row_json fields) }
    ensures reports { (head : List Field) (rows : JsonItems) → All (λ field. IsWritableValue (field_value_json field.value)) head →
        AreWritableItems rows → IsWritableValue (report_json head rows) }
{}

/// The text of a string has no bare control character.
pub fn strings_have_no_control()
    ensures { (text bytes : Text) → IsJsonString text bytes → All (λ b. 32 ≤ b) text }
{}

/// An integer of 64 bits has one text.
#[tactic(auto, using(crate::proofs::Grammar::int_is_decimal))]
pub fn integers_have_one_text()
    ensures { (text : Text) (n : ℕ) → IsJsonInt text n → n < 2 ^ 64 → text ≡ decimal n }
{}

/// Texts with what they denote: in RFC 8259 those of section 7, the array of the first object of section 13, and its three small texts.
pub fn rfc_8259_examples()
    ensures clef { IsJsonString (codes "\"\\uD834\\uDD1E\"") (240 ∷ 157 ∷ 132 ∷ 158 ∷ []) }
    ensures reverse_solidus { IsJsonString (codes "\"\\u005C\"") (92 ∷ []) }
    ensures ids { IsJsonText (codes "[116, 943, 234, 38793]")
        (array (item (number (pos 116)) (item (number (pos 943)) (item (number (pos 234)) (item (number (pos 38793)) no_items))))) }
    ensures hello { IsJsonText (codes "\"Hello world!\"") (string (codes "Hello world!")) }
    ensures answer { IsJsonText (codes "42") (number (pos 42)) }
    ensures truth { IsJsonText (codes "true") (boolean true) }
{}
