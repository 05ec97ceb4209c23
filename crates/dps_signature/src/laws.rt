//! The laws of terms over a signature. Each function does nothing: its contract is the law.
ghost use Rattle.dps_signature.specs.Laws.{SubstitutionStaysOver, KnowledgeBecomesRecipes};

/// Terms over a signature, put for the variables of such a term, give such a term.
pub fn substitution_stays_over()
    ensures { SubstitutionStaysOver }
{}

/// A closed tree of knowledge over a signature, with recipes for its entries, is a recipe.
pub fn knowledge_becomes_recipes()
    ensures { KnowledgeBecomesRecipes }
{}
