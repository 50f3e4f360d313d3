ghost use Rattle.std.specs.Prelude.{◌≡◌, ◌≤◌};
ghost use Rattle.image_model.specs.Texts.{demand_text_of};

/// What is said of an image that fails this demand, 1 to 24 (ECMA-335 II.22, II.24, II.25).
#[tactic(auto, unfolding(crate::specs::Texts::demand_texts))]
pub fn demand_text(rule: u8) -> &'static str
    requires first { 1 ≤ rule }
    requires last { rule ≤ 24 }
    ensures { result.now ≡ demand_text_of rule }
{
    match rule {
        1 => "the headers aren't a PE file's",
        2 => "the machine or header isn't in the profile",
        3 => "there is no CLI header",
        4 => "the CLI header isn't in the profile",
        5 => "the metadata root is damaged",
        6 => "a table isn't in the profile",
        7 => "a row is cut",
        8 => "an index is out of its range",
        9 => "a heap entry is damaged",
        10 => "the module or assembly row is wrong",
        11 => "a run is wrong",
        12 => "a table isn't sorted",
        13 => "nesting or a scope is wrong",
        14 => "a signature is damaged",
        15 => "a type or member stands twice",
        16 => "a value is wrong",
        17 => "a body's header is wrong",
        18 => "an instruction is wrong",
        19 => "a clause is wrong",
        20 => "a token in a body is wrong",
        21 => "an attribute is wrong",
        22 => "a base is wrong",
        23 => "an accessor is wrong",
        _ => "the assembly is too large",
    }
}
