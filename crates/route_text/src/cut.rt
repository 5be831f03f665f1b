//! Texts cut in two at an octet.

ghost use Rattle.std.specs.Prelude.{◌≡◌, ◌<◌, ◌++◌, ◌∷◌, IfSome, IfNone};
ghost use Rattle.route_text.specs.Octets.{Lacks};

/// The text before the first `mark`, and the text after it.
pub(crate) fn cut_at_first(text: &str, mark: char) -> Option<(&str, &str)>
    requires { mark < 128 }
    ensures parts { IfSome result (λ x. text.now ≡ x.0.now ++ mark ∷ x.1.now) }
    ensures first { IfSome result (λ x. Lacks mark x.0.now) }
    ensures none { IfNone result (Lacks mark text.now) }
{
    text.split_once(mark)
}

/// The text before the last `mark`, and the text after it.
pub(crate) fn cut_at_last(text: &str, mark: char) -> Option<(&str, &str)>
    requires { mark < 128 }
    ensures parts { IfSome result (λ x. text.now ≡ x.0.now ++ mark ∷ x.1.now) }
    ensures last { IfSome result (λ x. Lacks mark x.1.now) }
    ensures none { IfNone result (Lacks mark text.now) }
{
    text.rsplit_once(mark)
}
