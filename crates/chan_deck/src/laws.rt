//! What holds of decks and their texts, whatever the code does.

ghost use Rattle.std.specs.Prelude.{◌≡◌, ℕ, true, List};
ghost use Rattle.chan_deck.specs.DeckValue.{DeckValue, Spells};
ghost use Rattle.chan_deck.specs.Refused.{IsDeckOrRefused, IsRefused};
ghost use Rattle.chan_deck.specs.SameDecks.{same_decks};
ghost use Rattle.chan_deck.specs.declared.cause.Cause.{Cause};

/// No text spells two decks, and no deck has two texts.
fn one_text()
    ensures decks { (t : List ℕ) (d e : DeckValue) → Spells t d → Spells t e → d ≡ e }
    ensures texts { (t u : List ℕ) (d : DeckValue) → Spells t d → Spells u d → t ≡ u }
{}

/// Decks compare as equal exactly where they are one deck.
fn equal_decks()
    ensures one { (d e : DeckValue) → same_decks d e ≡ true → d ≡ e }
    ensures equal { (d e : DeckValue) → d ≡ e → same_decks d e ≡ true }
{}

/// No text is refused in two ways, and none that is refused spells a deck.
fn one_refusal()
    ensures line { (t : List ℕ) (m n : ℕ) (b c : Cause)
        → IsRefused t m b → IsRefused t n c → m ≡ n }
    ensures cause { (t : List ℕ) (m n : ℕ) (b c : Cause)
        → IsRefused t m b → IsRefused t n c → b ≡ c }
    ensures none { (t : List ℕ) (n : ℕ) (c : Cause) (d : DeckValue)
        → IsRefused t n c → Spells t d → ⊥ }
{}

/// Each text spells a deck or is refused, at some line and for some cause.
fn each_text()
    ensures { (t : List ℕ) → IsDeckOrRefused t }
{}
