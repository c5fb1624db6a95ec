ghost use Rattle.std.specs.Prelude.{◌≡◌, true};
ghost use Rattle.toml_items.specs.Plain.{are_bare_keys, spelling};

/// The header of an element of an array of tables, and the text behind it.
#[derive(Clone, Copy, Drop)]
pub struct Header<'t> {
    /// The key of the table in which the array stands, where it is not the top one.
    pub parent: Option<&'t str>,
    pub key: &'t str,
    /// The header as it is spelled, from bracket to bracket.
    pub spelled: &'t str,
    pub rest: &'t str,
    pub ghost bare: { are_bare_keys parent key.now ≡ true },
    pub ghost spells: { spelled.now ≡ spelling parent key.now },
}
