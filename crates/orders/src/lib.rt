// The monomials without squares in the order of their weights, and the squares among them, as the tables that drawing up in words goes by.
#![tactic(auto)]

pub mod weighing;
