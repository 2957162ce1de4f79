// What a single word is.
ghost use Rattle.std.specs.Prelude.{ℕ, List, ◌≡◌, ◌≢◌, ◌<◌, ◌↔◌, [], ◌∷◌, ◌++◌, MatchOption, IsTrue, codes};
ghost use Rattle.std.specs.Str.{chars};
ghost use Rattle.mh_words.specs.Forms.{HasForm};

/// What a word is by its first characters, with the name that follows its dashes.
#[derive(Clone, Copy)]
pub enum Form<'a> {
    Folder,
    Message,
    Dash,
    Switch(&'a str),
    Component(&'a str),
}

/// What follows the mark, where the text begins with it.
fn after_mark(text: &str, mark: char) -> Option<&str>
    requires { mark < 128 }
    ensures { MatchOption result ((rest : List ℕ) → chars text.now ≢ mark ∷ rest)
        (λ rest. chars text.now ≡ mark ∷ chars rest.now) }
{
    text.strip_prefix(mark)
}

/// Whether the text has no character.
fn is_blank(text: &str) -> bool
    ensures { IsTrue result ↔ (chars text.now ≡ []) }
{
    text.is_empty()
}

/// What a word is that has this name after its first dash.
fn dashed_form<'a>(components: bool, word: &'a str, name: &'a str) -> Form<'a>
    requires { chars word.now ≡ codes "-" ++ chars name.now }
    ensures { HasForm components (chars word.now) result }
{
    if is_blank(name) {
        return Form::Dash;
    }
    if !components {
        return Form::Switch(name);
    }
    match after_mark(name, '-') {
        Some(component) => Form::Component(component),
        None => Form::Switch(name),
    }
}

/// What a word is, where the table allows components or not.
pub fn form_of<'a>(components: bool, word: &'a str) -> Form<'a>
    ensures { HasForm components (chars word.now) result }
{
    if after_mark(word, '+').is_some() {
        return Form::Folder;
    }
    match after_mark(word, '-') {
        Some(name) => dashed_form(components, word, name),
        None => Form::Message,
    }
}
