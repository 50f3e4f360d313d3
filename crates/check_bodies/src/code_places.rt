//! The places of a method's code that its tokens name: numbers of instructions (ECMA-335 II.5.4, II.15.4.1, II.19).

ghost use Rattle.std.specs.Prelude.{◌≡◌, IfOk};
ghost use Rattle.std.specs.List.Sorted.{IsNonDecreasing};
ghost use Rattle.il_lexer.specs.declared.types.TokenKind.TheVariants.{Name};
ghost use Rattle.source_model.specs.Forest.{Forest, preorder};
ghost use Rattle.source_model.specs.Instructions.{label_number, number_at};
ghost use Rattle.source_model.specs.Nodes.{Node};
ghost use Rattle.source_model.specs.Source.{Source};
ghost use Rattle.source_syntax.specs.Labels.{count_below};
ghost use Rattle.source_syntax.specs.Methods.{IsMethod};
ghost use Rattle.source_nodes.specs.Readers.{IsOf, Reads};
ghost use Rattle.source_nodes.specs.Walk.{IsForest};
ghost use Rattle.check_bodies.specs.CodePlaces.{ArePlaces};

use il_base::{Items, NoMemory};
use ilasm_grammar::TreeNode;
use source_nodes::pieces::{Sought, first_tokens, pieces_of};
use source_nodes::reader::Reader;
use source_syntax::label_numbers::Labels;
use std::alloc::Global;

/// The places of a method's code: the tokens at which its instructions begin, and its labels.
#[derive(Drop)]
pub struct CodePlaces {
    pub starts: Items<u32>,
    pub labels: Labels,
}

impl CodePlaces {
    /// Those of a method, from the nodes below its production.
    pub fn read(alloc: Global, reader: &Reader, nodes: &[TreeNode]) -> Result<CodePlaces, NoMemory>
        requires { IsForest nodes.now }
        ensures { (s : Source) (n : Node) → Reads reader.now s → IsMethod s n → preorder n.below ≡ nodes.now → IfOk result (λ x. ArePlaces x s n.below) }
    {
        let code = pieces_of(alloc, nodes, Sought::Instructions)?;
        let starts = first_tokens(alloc, nodes, code.as_slice())?;
        let labels = Labels::read(alloc, reader, nodes, code.as_slice())?;
        Ok(CodePlaces { starts, labels })
    }

    /// The number of the instruction that follows a token, or of all at the end.
    pub fn number_at(&self, token: u32) -> usize
        ensures { (s : Source) (f : Forest) → ArePlaces self.now s f → result ≡ number_at f token }
    {
        count_below(self.starts.as_slice(), token)
    }

    /// The number that a label stands for, or that of all instructions where the method has none with this name.
    pub fn label_number(
        &self,
        alloc: Global,
        reader: &Reader,
        token: u32,
    ) -> Result<usize, NoMemory>
        ensures { (s : Source) (f : Forest) → Reads reader.now s → ArePlaces self.now s f → IsOf s Name token → IfOk result (λ k. k ≡ label_number s f token) }
    {
        let number = self.labels.number_of(alloc, reader, token)?;
        Ok(number.unwrap_or(self.starts.len()))
    }
}

// How many tokens are less than one, where they never fall.
fn count_below(starts: &[u32], token: u32) -> usize
    ensures { IsNonDecreasing starts.now → result ≡ count_below token starts.now }
{
    starts.partition_point(|start| *start < token)
}
