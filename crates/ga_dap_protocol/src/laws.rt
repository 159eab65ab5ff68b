//! The laws of framing, each the contract of a function that does nothing. They are about the definitions only.

ghost use Rattle.std.specs.Prelude.{◌≡◌, ◌≤◌, ◌++◌, ℕ, List, length};
ghost use Rattle.ga_dap_protocol.specs.Framing.{content_limit, framed_message, IsMessage, IsMessagePrefix, CanBeginNoMessage};

/// What is written for a content part within the limit is its message.
pub fn framed_content_is_message()
    ensures { (content : List ℕ) → length content ≤ content_limit → IsMessage content (framed_message content) }
{}

/// A text begins with at most one message, which has one content part. An input therefore has the same messages however it is
/// cut.
pub fn first_message_is_unique()
    ensures text { (text other content inner after behind : List ℕ) → IsMessage content text → IsMessage inner other →
        text ++ after ≡ other ++ behind → (text ≡ other) × (after ≡ behind) }
    ensures content { (text content inner : List ℕ) → IsMessage content text → IsMessage inner text → content ≡ inner }
{}

/// If a text begins with a message, more bytes make no other: what begins with a message begins no longer one.
pub fn message_end_is_stable()
    ensures { (content text after : List ℕ) → IsMessage content text → IsMessagePrefix (text ++ after) → ⊥ }
{}
