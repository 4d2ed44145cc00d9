//! The words that the program is called by.
ghost use Rattle.std.specs.Prelude.{◌≡◌, ◌≢◌, ◌↔◌, ◌∷◌, [], List, ℕ, true, map, string_bytes, codes, IfSome, IfNone};
ghost use Rattle.ttrpc_echo.specs.Program.Words.{IsAnswer, IsBehind, IsCall};

/// The words after `call`: an address, a service, a method, the payload's hex digits and a timeout.
#[derive(Clone, Copy, Debug)]
pub struct CallWords<'a> {
    pub address: &'a str,
    pub service: &'a str,
    pub method: &'a str,
    pub digits: &'a str,
    pub timeout: &'a str,
}

/// Returns whether the words are the one word `answer`.
pub fn are_answer(words: &[String]) -> bool
    ensures { (result ≡ true) ↔ IsAnswer (map string_bytes words.now) }
{
    match words {
        [word] => word.as_str() == "answer",
        _ => false,
    }
}

/// Returns the second of two words, if the first of them is `first`.
pub fn word_behind<'a>(words: &'a [String], first: &str) -> Option<&'a str>
    ensures some { IfSome result
        (λ second. IsBehind first.now (map string_bytes words.now) second.now) }
    ensures none { IfNone result
        ((second : List ℕ) → map string_bytes words.now ≢ first.now ∷ second ∷ []) }
{
    match words {
        [word, second] => {
            if word.as_str() == first {
                Some(second.as_str())
            } else {
                None
            }
        }
        _ => None,
    }
}

/// Returns the five words after `call`. Returns `None` if the words are others.
pub fn call_words(words: &[String]) -> Option<CallWords<'_>>
    ensures some { IfSome result (λ call. IsCall (map string_bytes words.now)
        call.address.now call.service.now call.method.now call.digits.now call.timeout.now) }
    ensures none { IfNone result ((a s m d t : List ℕ)
        → map string_bytes words.now ≢ codes "call" ∷ a ∷ s ∷ m ∷ d ∷ t ∷ []) }
{
    match words {
        [word, address, service, method, digits, timeout] => {
            if word.as_str() != "call" {
                return None;
            }
            Some(CallWords {
                address: address.as_str(),
                service: service.as_str(),
                method: method.as_str(),
                digits: digits.as_str(),
                timeout: timeout.as_str(),
            })
        }
        _ => None,
    }
}
