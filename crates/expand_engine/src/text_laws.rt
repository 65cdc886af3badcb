//! Laws of the texts of recipes: functions that do nothing, whose contracts are the laws.
ghost use Rattle.std.specs.Prelude.{◌≡◌, ℕ, List};
ghost use Rattle.text_io.specs.Grammars.{IsFirstFault};
ghost use Rattle.history.specs.declared.text_causes.TextCause.{TextCause};
ghost use Rattle.expand_engine.specs.Recipes.{IsRecipe, recipe_lines};
ghost use Rattle.expand_engine.specs.declared.recipes.Due.TheVariants.{Version};
ghost use Rattle.expand_engine.specs.declared.recipes.Said.{Said};
ghost use Rattle.expand_engine.specs.declared.recipes.Sizes.{Sizes};

/// A text is one recipe's at most: its lines say one thing, and its sizes are one. Takes no memory.
pub fn a_text_is_one_recipe()
    //= recipes/reading: Texts of recipes have one reading.
    ensures { (text : List ℕ) (s t : Sizes) (first second : List Said)
        → IsRecipe text s first → IsRecipe text t second → (s ≡ t) × (first ≡ second) }
{}

/// The first faulty line of a text is one, and wrong for one cause; a recipe has none. Takes no memory.
pub fn a_text_has_one_first_fault()
    //= recipes/reading (one, none)
    ensures one { (text : List ℕ) (at by : ℕ) (c d : TextCause)
        → IsFirstFault recipe_lines Version text at c
        → IsFirstFault recipe_lines Version text by d → (at ≡ by) × (c ≡ d) }
    ensures none { (text : List ℕ) (sizes : Sizes) (saids : List Said) (at : ℕ) (cause : TextCause)
        → IsRecipe text sizes saids → ¬ IsFirstFault recipe_lines Version text at cause }
{}

/// Every text is a recipe or has a first faulty line: it can't be that it is neither. Takes no memory.
pub fn a_text_is_a_recipe_or_faulty()
    //= recipes/reading
    ensures { (text : List ℕ)
        → ((sizes : Sizes) (saids : List Said) → ¬ IsRecipe text sizes saids)
        → ¬ ((at : ℕ) (cause : TextCause) → ¬ IsFirstFault recipe_lines Version text at cause) }
{}
