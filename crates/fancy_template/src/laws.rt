//! Laws of templates. Each is the contract of a function that does nothing.

ghost use Rattle.std.specs.Prelude.{◌≡◌, ◌∷◌, List};
ghost use Rattle.fancy_tree.specs.Text.{Text};
ghost use Rattle.fancy_template.specs.Templates.{TemplateSyntax, Step, literal, Cuts, steps, ReadsDelimited, ReadsUndelimited, ReadsDigits};

/// A template is cut into steps in one way, and in no other.
pub fn template_is_cut_in_one_way()
    ensures some { (s : TemplateSyntax) (t : Text) → Cuts s t (steps s t) }
    ensures one { (s : TemplateSyntax) (t : Text) (xs : List Step) → Cuts s t xs → xs ≡ steps s t }
{}

/// What each form is read as: a doubled mark, a name between delimiters, a name alone, and a number.
pub fn forms_are_read()
    ensures doubled { (s : TemplateSyntax) (t : Text) → steps s (s.mark ∷ s.mark ∷ t) ≡ literal s.mark ∷ steps s t }
    ensures delimited { (s : TemplateSyntax) (w t : Text) → ReadsDelimited s w t }
    ensures undelimited { (s : TemplateSyntax) (w t : Text) → ReadsUndelimited s w t }
    ensures digits { (s : TemplateSyntax) (w t : Text) → ReadsDigits s w t }
{}
